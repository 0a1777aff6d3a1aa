ghost use Rattle.std.specs.Prelude.{◌≡◌, IfOk, OnOk, fold};
ghost use Rattle.partitioned_memory.specs.Lists.{Every};
ghost use Rattle.domain_laws.specs.Made.{values_of};
ghost use Rattle.partitioned_memory.specs.Well.{IsWell, IsWellFact, MayHold};
ghost use Rattle.abstract_state.specs.State.{IsWellState};
ghost use Rattle.abstract_state.specs.Widening.{widened_facts, widened_registers, widened_state, with_widened_fact};

use crate::seen::{Holder, Seen, holder_of};
use crate::state::State;
use bit_words::NoMemory;
use domain_laws::Domain;
use memory_map::Regs;
use partitioned_memory::{Fact, Parts};

fn widened_registers<D: Domain>(mut regs: Regs<D>, k: u32, seen: &Seen<D>) -> Regs<D>
    ensures { result ≡ widened_registers (values_of D.Domain.own D.eq) k seen.now regs }
{
    for r in 0..8u8 {
        let value = seen.widened(k, Holder::Register(r), regs.get(r));
        regs.set(r, value);
    }
    regs
}

// A fact whose value changes is put again.
fn put_widened<D: Domain>(
    parts: &mut Parts<D>,
    k: u32,
    seen: &Seen<D>,
    f: &Fact<D>,
) -> Result<(), NoMemory>
    requires { MayHold (values_of D.Domain.own D.eq) parts.old.blocks f.now.w f.now.value }
    ensures { OnOk result (parts.new ≡ with_widened_fact (values_of D.Domain.own D.eq) k seen.now parts.old f.now) }
{
    let value = seen.widened(k, holder_of(f), f.value);
    if value != f.value {
        parts.put_fact(f.area, f.low, f.w, value)?;
    }
    Ok(())
}

fn put_all<D: Domain>(
    parts: &mut Parts<D>,
    k: u32,
    seen: &Seen<D>,
    facts: &[Fact<D>],
) -> Result<(), NoMemory>
    requires { Every (IsWellFact (values_of D.Domain.own D.eq) parts.old.blocks) facts.now }
    ensures { OnOk result (parts.new ≡ fold (with_widened_fact (values_of D.Domain.own D.eq) k seen.now) parts.old facts.now) }
{
    for f in facts {
        put_widened(parts, k, seen, f)?;
    }
    Ok(())
}

fn widened_parts<D: Domain>(
    mut parts: Parts<D>,
    k: u32,
    seen: &Seen<D>,
) -> Result<Parts<D>, NoMemory>
    requires { IsWell (values_of D.Domain.own D.eq) parts }
    ensures { IfOk result (λ widened. widened ≡ record parts { facts = widened_facts (values_of D.Domain.own D.eq) k seen.now parts.facts }) }
{
    let facts = parts.copy_facts()?;
    put_all(&mut parts, k, seen, &facts)?;
    Ok(parts)
}

impl<D: Domain> State<D> {
    /// This state made to stand for more. Each register and each fact by itself: its value is raised until it was seen there,
    /// has rank 0, or has a rank of which fewer than `k` values were seen there. A fact that is raised to rank 0 goes. The answer is well.
    /// Where nothing was seen, nothing changes.
    #[tactic(auto, unfolding(crate::specs::Widening::widened_state))]
    pub fn widen(self, k: u32, seen: &Seen<D>) -> Result<State<D>, NoMemory>
        ensures widened { IfOk result (λ s. s ≡ widened_state (values_of D.Domain.own D.eq) k seen.now self) }
        ensures well { IfOk result (IsWellState (values_of D.Domain.own D.eq)) }
    {
        if 0 < k && seen.is_empty() {
            return Ok(self);
        }
        let State {
            regs,
            flags,
            note,
            parts,
        } = self;
        let regs = widened_registers(regs, k, seen);
        let parts = widened_parts(parts, k, seen)?;
        Ok(State {
            regs,
            flags,
            note,
            parts,
        })
    }
}
