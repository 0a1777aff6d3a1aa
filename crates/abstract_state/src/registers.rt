ghost use Rattle.std.specs.Prelude.{◌≡◌};
ghost use Rattle.domain_laws.specs.Made.{values_of};
ghost use Rattle.abstract_state.specs.Registers.{covers_registers};

use domain_laws::Domain;
use memory_map::Regs;

/// Whether the first values stand for all for which the second do, register by register.
pub fn covers<D: Domain>(t: &Regs<D>, s: &Regs<D>) -> bool
    ensures { result ≡ covers_registers (values_of D.Domain.own D.eq) t.now s.now }
{
    s.eax.leq(t.eax)
        && s.ecx.leq(t.ecx)
        && s.edx.leq(t.edx)
        && s.ebx.leq(t.ebx)
        && s.esp.leq(t.esp)
        && s.ebp.leq(t.ebp)
        && s.esi.leq(t.esi)
        && s.edi.leq(t.edi)
}
