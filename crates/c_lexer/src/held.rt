//! What the lexer holds while it reads a piece, and can put back as it was before the piece: tokens, and the bytes of
//! an open word or number.

ghost use Rattle.std.specs.Prelude.{◌≡◌, [], ◌∷◌, ◌++◌, OnOk};

use crate::token::Token;
use std::alloc::{AllocError, Global};
use std::marker::Model;

/// Tokens, seen as those from before the piece and those since.
#[derive(Drop)]
pub struct HeldTokens {
    tokens: Vec<Token>,
    kept: usize,
}

impl Model for HeldTokens {
    ghost use Rattle.std.specs.Prelude.{List, take, drop, ◌≤◌, length};
    ghost use Rattle.c_lexer.specs.declared.token.Token.{Token};

    ghost Value = { List Token × List Token };

    ghost view = { λ h. (take h.kept h.tokens.items, drop h.kept h.tokens.items) };

    ghost invariant = { λ h. h.kept ≤ length h.tokens.items };
}

impl HeldTokens {
    pub fn new(alloc: Global) -> Self
        ensures before { result.0 ≡ [] }
        ensures since { result.1 ≡ [] }
    {
        HeldTokens {
            tokens: Vec::new(alloc),
            kept: 0,
        }
    }

    pub fn push(&mut self, token: Token) -> Result<(), AllocError>
        ensures before { self.new.0 ≡ self.old.0 }
        ensures ok { OnOk result (self.new.1 ≡ self.old.1 ++ token ∷ []) }
    {
        self.tokens.push(token)?;
        Ok(())
    }

    /// The piece is read.
    pub fn commit(&mut self)
        ensures before { self.new.0 ≡ self.old.0 ++ self.old.1 }
        ensures since { self.new.1 ≡ [] }
    {
        self.kept = self.tokens.len();
    }

    /// The piece is not read.
    pub fn revert(&mut self)
        ensures before { self.new.0 ≡ self.old.0 }
        ensures since { self.new.1 ≡ [] }
    {
        self.tokens.truncate(self.kept);
    }

    pub fn into_tokens(self) -> Vec<Token>
        ensures { result.items ≡ self.0 ++ self.1 }
    {
        let HeldTokens { tokens, kept: _ } = self;
        tokens
    }
}

/// The bytes of an open word or number, seen as those that were open before the piece and those that are now.
#[derive(Drop)]
pub struct HeldText {
    first: Vec<u8>,
    kept: usize,
    later: Vec<u8>,
    replaced: bool,
}

impl Model for HeldText {
    ghost use Rattle.std.specs.Prelude.{ℕ, List, take, ◌≤◌, length, if◌then◌else◌};

    ghost Value = { List ℕ × List ℕ };

    ghost view = { λ h. (take h.kept h.first.items, if h.replaced then h.later.items else h.first.items) };

    ghost invariant = { λ h. h.kept ≤ length h.first.items };
}

impl HeldText {
    pub fn new(alloc: Global) -> Self
        ensures before { result.0 ≡ [] }
        ensures now { result.1 ≡ [] }
    {
        HeldText {
            first: Vec::new(alloc),
            kept: 0,
            later: Vec::new(alloc),
            replaced: false,
        }
    }

    pub fn bytes(&self) -> &[u8]
        ensures { result.now ≡ self.now.1 }
    {
        if self.replaced {
            self.later.as_slice()
        } else {
            self.first.as_slice()
        }
    }

    /// The byte begins a word or number.
    pub fn begin(&mut self, byte: u8) -> Result<(), AllocError>
        ensures before { self.new.0 ≡ self.old.0 }
        ensures ok { OnOk result (self.new.1 ≡ byte ∷ []) }
    {
        self.later.clear();
        self.replaced = true;
        self.later.push(byte)?;
        Ok(())
    }

    /// The byte goes on.
    pub fn push(&mut self, byte: u8) -> Result<(), AllocError>
        ensures before { self.new.0 ≡ self.old.0 }
        ensures ok { OnOk result (self.new.1 ≡ self.old.1 ++ byte ∷ []) }
    {
        if self.replaced {
            self.later.push(byte)?;
        } else {
            self.first.push(byte)?;
        }
        Ok(())
    }

    /// The piece is read.
    pub fn commit(&mut self)
        ensures before { self.new.0 ≡ self.old.1 }
        ensures now { self.new.1 ≡ self.old.1 }
    {
        if self.replaced {
            std::mem::swap(&mut self.first, &mut self.later);
            self.replaced = false;
        }
        self.kept = self.first.len();
    }

    /// The piece is not read.
    pub fn revert(&mut self)
        ensures before { self.new.0 ≡ self.old.0 }
        ensures now { self.new.1 ≡ self.old.0 }
    {
        self.replaced = false;
        self.first.truncate(self.kept);
    }
}
