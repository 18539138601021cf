// Every call of a recording, shown to a census.
ghost use Rattle.std.specs.Prelude.{◌≡◌, ℕ, length, drop, Ok};
ghost use Rattle.std.specs.List.{AllByRecursion};
ghost use Rattle.model.specs.Order.{rule_of};
ghost use Rattle.model.specs.Ledger.{Ledger, shown_all};
ghost use Rattle.census.specs.Refusals.{may_keep, needed};
ghost use Rattle.census.specs.SameSize.{SameSize};
ghost use Rattle.census.specs.Means.{Keeps};
ghost use Rattle.lines.specs.Fit.{CallFit};
ghost use Rattle.counting.specs.Calls.{model_calls};

use census::{Census, PageRecord};
use model::Call;
use recordings::Calls;
use rules::TopRule;

// Shows a census the calls of a recording with its page count, in order.
pub(crate) fn show_calls<R: TopRule>(
    census: &mut Census<R>,
    table: &mut [PageRecord],
    counts: &mut [u32],
    calls: Calls,
)
    requires fit { AllByRecursion (CallFit census.old.pages) calls }
    requires room { may_keep census.old.pages (length table.old) (length counts.old) ≡ Ok tt }
    ensures same { SameSize census.old census.new }
    ensures rest { (drop census.old.pages table.new ≡ drop census.old.pages table.old) × (drop (needed census.old.pages) counts.new ≡ drop (needed census.old.pages) counts.old) }
    ensures shown { (b : Ledger) → Keeps R.TopRule.told census.old table.old counts.old b → Keeps R.TopRule.told census.new table.new counts.new (shown_all (rule_of R.TopRule.slot R.TopRule.next) census.old.pages census.old.parts.slots b (model_calls calls.entry)) }
{
    for call in calls {
        census.show(table, counts, Call::from(call)).unwrap();
    }
}
