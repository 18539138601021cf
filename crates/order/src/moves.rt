// What a use does to the order. The lent table and a page go with each move: a struct of both would live for one call.
ghost use Rattle.std.specs.Prelude.{◌≡◌, ℕ, ◌<◌, ◌≤◌, false, List, map, length, is_some, IfSome, None, MatchOption, slice_index, slice_set};
ghost use Rattle.lists.specs.Weights.{has};
ghost use Rattle.lists.specs.Places.{without};
ghost use Rattle.links.specs.Segs.{end_of};
ghost use Rattle.links.specs.Reads.{nexts, prevs, parts};
ghost use Rattle.links.specs.HeldIn.{HeldIn};
ghost use Rattle.links.specs.Same.{SameRest, SameButLinks};
ghost use Rattle.model.specs.Order.{Order, rule_of, fresh, entered, exchanged, used, depth_of, slot_of};
ghost use Rattle.order.specs.Views.{Views, views_of};
ghost use Rattle.order.specs.Stands.{Arranged, Stands, AllUnused, SaysBottom};
ghost use Rattle.order.specs.Steps.{without_last, asked};
ghost use Rattle.arrayvec.specs.ArrayVec.{array_vec_len};

use super::parts::TwoParts;
use arrayvec::ArrayVec;
use links::{Ends, Linked, Links, Part};
use rules::TopRule;

// Has the table say that `page` is in `part`.
// By an index: of a slice that `get_mut` lent from, a proof knows the length alone.
fn note_part<T: Linked>(table: &mut [T], page: usize, part: Part)
    ensures next { nexts T.Linked.links table.new ≡ nexts T.Linked.links table.old }
    ensures prev { prevs T.Linked.links table.new ≡ prevs T.Linked.links table.old }
    ensures part { parts T.Linked.links table.new ≡ slice_set (parts T.Linked.links table.old) page part }
    ensures rest { SameRest T.Linked.rest table.old table.new }
{
    if page < table.len() {
        let record = &mut table[page];
        record.set_links(Links {
            part,
            ..record.links()
        });
    }
}

impl<R: TopRule> TwoParts<R> {
    // Empty parts, for a table in which no record is in a part.
    pub fn make(rule: R, slots: u32) -> TwoParts<R>
        requires some { 0 < slots }
        requires few { slots ≤ 64 }
        ensures slots { result.slots ≡ slots }
        ensures stands { (v : Views) → AllUnused v → Stands R.TopRule.told result v (fresh (R.TopRule.told rule)) }
    {
        TwoParts {
            rule,
            slots,
            top: ArrayVec::new(),
            bottom: Ends::empty(),
        }
    }

    // The depth of a page: 0 in the top, its place in the bottom from 1, none where it is in no part.
    pub fn depth_of<T: Linked>(&self, table: &[T], page: usize) -> Option<usize>
        ensures bound { IfSome result (λ d. d ≤ length table.now) }
        ensures depth { (o : Order) → Arranged self.now (views_of T.Linked.links table.now) o → page < length table.now → result ≡ depth_of page o }
    {
        match links::part_at(table, page)? {
            Part::Unused => None,
            Part::Top => Some(0),
            Part::Bottom => links::depth(table, self.bottom.first, page),
        }
    }

    // The page in a slot, none where the slot is not filled.
    pub fn page_at(&self, slot: usize) -> Option<usize>
        ensures { (v : Views) (o : Order) → Arranged self.now v o → MatchOption result (length o.top ≤ slot) (λ p. (slot < length o.top) × (p ≡ slice_index o.top slot)) }
    {
        self.top.get(slot).copied()
    }

    // The slot that holds a page, none where no slot does.
    pub fn slot_of(&self, page: usize) -> Option<usize>
        ensures { (v : Views) (o : Order) → Arranged self.now v o → result ≡ slot_of page o }
    {
        self.top.iter().position(|held| *held == page)
    }

    // A use of `page`. A page past the table changes nothing.
    pub fn touch<T: Linked>(&mut self, table: &mut [T], page: usize)
        ensures step { (o : Order) → Stands R.TopRule.told self.old (views_of T.Linked.links table.old) o → page < length table.old → Stands R.TopRule.told self.new (views_of T.Linked.links table.new) (used (rule_of R.TopRule.slot R.TopRule.next) self.old.slots page o) }
        ensures past { length table.old ≤ page → (table.new ≡ table.old) × (self.new ≡ self.old) }
        ensures rest { SameRest T.Linked.rest table.old table.new }
        ensures slots { self.new.slots ≡ self.old.slots }
    {
        let Some(part) = links::part_at(table, page) else {
            return;
        };
        if part == Part::Top {
            return;
        }
        if self.top.len() < self.slots as usize {
            self.enter(table, page);
        } else {
            self.exchange(table, page);
        }
    }

    // Takes the oldest page of the bottom out of the order. None, and nothing is changed, where the bottom is empty.
    pub fn drop_last<T: Linked>(&mut self, table: &mut [T]) -> Option<usize>
        ensures oldest { (o : Order) → Arranged self.old (views_of T.Linked.links table.old) o → result ≡ end_of None o.bottom }
        ensures step { (o : Order) → Stands R.TopRule.told self.old (views_of T.Linked.links table.old) o → Stands R.TopRule.told self.new (views_of T.Linked.links table.new) (without_last o) }
        ensures none { is_some result ≡ false → (table.new ≡ table.old) × (self.new ≡ self.old) }
        ensures rest { SameRest T.Linked.rest table.old table.new }
        ensures slots { self.new.slots ≡ self.old.slots }
    {
        let oldest = self.bottom.last?;
        if oldest >= table.len() {
            return None;
        }
        self.bottom.unlink(table, oldest);
        note_part(table, oldest, Part::Unused);
        Some(oldest)
    }

    // The page in the slot of a full top that the rule names. The rule is asked, and nothing is moved.
    // It answers 0 where the slot is not filled yet, since a call that could not fail still can't.
    pub fn choose_slot(&mut self) -> usize
        ensures chosen { (v : Views) (o : Order) → Stands R.TopRule.told self.old v o → self.old.slots ≤ length o.top → result ≡ slice_index o.top (R.TopRule.slot o.told self.old.slots) }
        ensures step { (v : Views) (o : Order) → Stands R.TopRule.told self.old v o → Stands R.TopRule.told self.new v (asked (rule_of R.TopRule.slot R.TopRule.next) self.old.slots o) }
        ensures slots { self.new.slots ≡ self.old.slots }
    {
        let named = self.rule.choose(self.slots) as usize;
        self.top.get(named).copied().unwrap_or(0)
    }

    // `page` takes the lowest empty slot.
    fn enter<T: Linked>(&mut self, table: &mut [T], page: usize)
        requires room { array_vec_len self.old.top < self.old.slots }
        ensures step { (o : Order) → Stands R.TopRule.told self.old (views_of T.Linked.links table.old) o → page < length table.old → has page o.top ≡ false → Stands R.TopRule.told self.new (views_of T.Linked.links table.new) (entered page o) }
        ensures rest { SameRest T.Linked.rest table.old table.new }
        ensures slots { self.new.slots ≡ self.old.slots }
    {
        self.top.push(page);
        note_part(table, page, Part::Top);
    }

    // The rule names a slot, whose page goes to the bottom, and `page` takes the slot.
    fn exchange<T: Linked>(&mut self, table: &mut [T], page: usize)
        requires full { self.old.slots ≤ array_vec_len self.old.top }
        ensures step { (o : Order) → Stands R.TopRule.told self.old (views_of T.Linked.links table.old) o → page < length table.old → has page o.top ≡ false → Stands R.TopRule.told self.new (views_of T.Linked.links table.new) (exchanged (rule_of R.TopRule.slot R.TopRule.next) self.old.slots page o) }
        ensures rest { SameRest T.Linked.rest table.old table.new }
        ensures slots { self.new.slots ≡ self.old.slots }
    {
        let slot = self.rule.choose(self.slots) as usize;
        let out = self.top[slot];
        self.top[slot] = page;
        detach(&mut self.bottom, table, page);
        self.bottom.push_front(table, out);
        note_part(table, out, Part::Bottom);
        note_part(table, page, Part::Top);
    }
}

// Takes `page` out of the bottom if the table says that it is there.
fn detach<T: Linked>(bottom: &mut Ends, table: &mut [T], page: usize)
    ensures list { (bs : List ℕ) → HeldIn T.Linked.links table.old bottom.old bs → SaysBottom (parts T.Linked.links table.old) page bs → HeldIn T.Linked.links table.new bottom.new (without page bs) }
    ensures same { SameButLinks T.Linked.links T.Linked.rest table.old table.new }
{
    if links::part_at(table, page) == Some(Part::Bottom) {
        bottom.unlink(table, page);
    }
}
