// The gates on lines.
ghost use Rattle.std.specs.Prelude.{◌≡◌, ℕ};
ghost use Rattle.line_sets.specs.LineSet.{union};
ghost use Rattle.line_kinds.specs.declared.kinds.Who.{Who};
ghost use Rattle.pic_8259.specs.Boot.{IsBooted};
ghost use Rattle.pic_8259.specs.Controllers.{IsPair, latch_of};
ghost use Rattle.hard_dispatch.specs.Sets.{asked_lines, marked_lines};
ghost use Rattle.gate_table.specs.Gates.{GateParts, gate_row};
ghost use Rattle.irq_gates.specs.Owners.{owner_changes, taken_of, without_taken};
ghost use Rattle.module_gates.specs.declared.family.Family.TheVariants as families;
ghost use Rattle.module_gates.specs.Effects.{asked_after, row_answers};
ghost use Rattle.module_gates.specs.Families.{family_of};

use gate_table::{GateName, Request};
use irq_gates::LineEffect;
use pic_8259::Pair;
use rt_irqs::Irqs;

/// A gate on lines.
pub fn line_row(name: GateName, q: &Request, irqs: &mut Irqs, pair: &mut Pair) -> LineEffect
    requires name { family_of name ≡ families.Lines }
    requires booted { IsBooted pair.old }
    requires pair { IsPair pair.old }
    ensures answer { (t : ℕ) (who : Who) (p : GateParts) → gate_row t who q.now (record p { irqs = marked_lines (latch_of pair.old) irqs.old }) name
        ≡ row_answers name q.now p.side result.result (record p { irqs = marked_lines (latch_of pair.new) irqs.new }) }
    ensures acknowledged { result.acknowledged ≡ taken_of (latch_of pair.old) (owner_changes irqs.old irqs.new) }
    ensures latches { latch_of pair.new ≡ without_taken result.acknowledged (latch_of pair.old) }
    ensures asked { (pending : ℕ) → asked_lines (latch_of pair.new) irqs.new (union pending result.guest)
        ≡ asked_after name q.now.ebx result.result (asked_lines (latch_of pair.old) irqs.old pending) }
    ensures booted { IsBooted pair.new }
    ensures kept { IsPair pair.new }
{
    match name {
        GateName::RequestIrq => irq_gates::request(q.ebx, q.ecx, irqs, pair),
        GateName::FreeIrq => irq_gates::free(q.ebx, irqs, pair),
        GateName::GetSoftIrq => irq_gates::get_soft(irqs),
        GateName::FreeSoftIrq => irq_gates::free_soft(q.ebx, irqs),
        _ => irq_gates::pend(q.ebx, irqs),
    }
}
