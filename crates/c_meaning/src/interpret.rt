//! Runs of programs (C11 5.1.2.2.3): the file-scope variables at the start, then `main`.

ghost use Rattle.std.specs.Prelude.{◌≡◌, ◌≤◌, map, true, Err, IfOk, OnOk, OnErr};
ghost use Rattle.outside_io.specs.Bytes.{Gains, GainsPrefix};
ghost use Rattle.outside_io.specs.Faults.{Rose};
ghost use Rattle.c_tree.specs.BareOf.{bare_program};
ghost use Rattle.resolved_names.specs.Numbered.{numbered_top};
ghost use Rattle.c_semantics.specs.Meaning.Programs as programs;
ghost use Rattle.c_semantics.specs.Meaning.Programs.{outcome, turns_of};
ghost use Rattle.c_meaning.specs.Ends.{finish_of};
ghost use Rattle.c_meaning.specs.LastItems.{StandBefore};
ghost use Rattle.c_meaning.specs.Plain.{is_plain};
ghost use Rattle.c_meaning.specs.Runnable.{RunnableTops};
ghost use Rattle.c_meaning.specs.Running.{Ran, lines_text, sunk};
ghost use Rattle.c_meaning.specs.States.{counted};

use crate::globals::begin;
use crate::last_items::LastItems;
use crate::machine::Machine;
use crate::run::{End, Run, RunFault, finish};
use crate::scope::Scope;
use crate::statements::run_block;
use c_tree::checked::Checked;
use outside_io::traits::Sink;
use resolved_names::resolve::resolve;
use resolved_names::tree::Item;
use std::alloc::Global;

/// The items in order, up to `main`, which runs in a frame of its own.
fn run_items<'p, K: Sink>(
    bound: u64,
    items: &'p [Item],
    last: &'p LastItems,
    m: &mut Machine<'p>,
    out: &mut K,
) -> Result<End, RunFault>
    requires runnable { RunnableTops (map numbered_top items.now) }
    requires last { StandBefore last.now items.now }
    ensures { Ran (programs.run_items bound (map numbered_top items.now) programs.no_env) m.old (sunk (K.held out.old) (K.faults out.old)) m.new (sunk (K.held out.new) (K.faults out.new)) result }
{
    'each: for (index, item) in items.iter().enumerate() {
        let scope = Scope {
            bound,
            items: &items[..index],
            last,
        };
        if let Item::Main { body, .. } = item {
            return run_block(&scope, m, out, body);
        }
        match begin(&scope, m, item) {
            Ok(()) => {}
            Err(_) => return Err(RunFault::Memory),
        }
    }
    Ok(End::Next)
}

/// Runs a program whose names are numbers.
fn run_numbered<'p, K: Sink>(
    alloc: Global,
    bound: u64,
    items: &'p [Item],
    last: &'p LastItems,
    input: &'p [i64],
    out: &mut K,
) -> Result<Run, RunFault>
    requires runnable { RunnableTops (map numbered_top items.now) }
    requires last { StandBefore last.now items.now }
    ensures lines { OnOk result (Gains (K.held out.old) (K.held out.new) (lines_text (outcome bound (map numbered_top items.now) input.now).lines)) }
    ensures end { IfOk result (λ run. finish_of run.end ≡ (outcome bound (map numbered_top items.now) input.now).end) }
    ensures turns { IfOk result (λ run. run.turns ≡ counted (turns_of bound (map numbered_top items.now) input.now)) }
    ensures part { OnErr result (GainsPrefix (K.held out.old) (K.held out.new) (lines_text (outcome bound (map numbered_top items.now) input.now).lines)) }
    ensures failed { result ≡ Err RunFault.WriteFault → Rose (K.faults out.old) (K.faults out.new) }
    ensures faults { K.faults out.old ≤ K.faults out.new }
{
    let mut m = Machine::new(alloc, input);
    let end = run_items(bound, items, last, &mut m, out)?;
    Ok(Run {
        end: finish(end),
        turns: m.turns(),
    })
}

/// Runs a program that holds no directive, with at most `bound` turns of each execution of a loop. What it prints goes
/// to `out`, line by line.
///
/// The answer is the run's end and how many turns of `for` loops it entered, 2^64 - 1 for any greater number; `out` then
/// holds exactly the printed lines behind what it held. A `WriteFault` comes only where a write to `out` failed in this
/// call, and `Memory` where memory is wanting; `out` then holds a first part of the lines.
pub fn interpret<K: Sink>(
    alloc: Global,
    checked: &Checked,
    bound: u64,
    input: &[i64],
    out: &mut K,
) -> Result<Run, RunFault>
    requires { is_plain (bare_program checked.now) ≡ true }
    ensures lines { OnOk result (Gains (K.held out.old) (K.held out.new) (lines_text (outcome bound (bare_program checked.now) input.now).lines)) }
    ensures end { IfOk result (λ run. finish_of run.end ≡ (outcome bound (bare_program checked.now) input.now).end) }
    ensures turns { IfOk result (λ run. run.turns ≡ counted (turns_of bound (bare_program checked.now) input.now)) }
    ensures part { OnErr result (GainsPrefix (K.held out.old) (K.held out.new) (lines_text (outcome bound (bare_program checked.now) input.now).lines)) }
    ensures failed { result ≡ Err RunFault.WriteFault → Rose (K.faults out.old) (K.faults out.new) }
    ensures faults { K.faults out.old ≤ K.faults out.new }
{
    let numbered = match resolve(alloc, checked.program().items.as_slice()) {
        Ok(items) => items,
        Err(_) => return Err(RunFault::Memory),
    };
    let items = numbered.as_slice();
    let last = match LastItems::of(alloc, items) {
        Ok(last) => last,
        Err(_) => return Err(RunFault::Memory),
    };
    run_numbered(alloc, bound, items, &last, input, out)
}
