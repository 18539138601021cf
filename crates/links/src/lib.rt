// A doubly linked list kept inside a lent table of records, for any record type.
//
// The product asks for records in a lent table, linked by their numbers, with no heap. The table's
// records hold the links, and `Ends` holds where the list begins and ends. Any other content of a
// record is left as it is. Each index is tested, so that a table whose links are damaged leads to a
// wrong list at worst. That a move leaves all but the links stands in the contract of each move, which speaks of the table
// before and after, as no type can; table, place and target are lent to one move alone.
#![tactic(auto)]

ghost use Rattle.std.specs.Prelude.{◌≡◌, ℕ, ◌-◌, ◌<◌, ◌≤◌, List, [], ◌∷◌, ◌++◌, map, length, IfSome, Some, None, Option, MatchOption, slice_index_or};
ghost use Rattle.links.specs.declared.Links.{Links};
ghost use Rattle.links.specs.declared.Part.TheVariants.{Unused};
ghost use Rattle.lists.specs.Weights.{occ};
ghost use Rattle.links.specs.Chain.{Chain};
ghost use Rattle.links.specs.Stepped.{stepped};
ghost use Rattle.links.specs.PlaceIn.{place_in};
ghost use Rattle.links.specs.Holds.{Holds};
ghost use Rattle.links.specs.Reads.{nexts, prevs, parts};
ghost use Rattle.links.specs.HeldIn.{HeldIn};
ghost use Rattle.links.specs.Same.{SameButLinks};
ghost use Rattle.links.specs.Writes.{set_link, end_link};

// Where a record is.
#[derive(Clone, Copy, PartialEq, Eq, Debug, Default)]
pub enum Part {
    // in no part
    #[default]
    Unused,
    // in a slot of the top
    Top,
    // in the bottom, after it left the top
    Bottom,
}

// A record's links to the next and to the previous record of its list, and the part that it is in.
#[derive(Clone, Copy, PartialEq, Eq, Debug, Default)]
pub struct Links {
    pub next: Option<usize>,
    pub prev: Option<usize>,
    pub part: Part,
}

// A record that has links.
pub trait Linked {
    ghost links: { Self → Links };

    // The record with neither link and in no part: everything but its links and its part.
    ghost rest: { Self → Self };

    fn links(&self) -> Links
        ensures { result ≡ links self.now };

    fn set_links(&mut self, to: Links)
        ensures links { links self.new ≡ to }
        ensures rest { rest self.new ≡ rest self.old };

    ghost none: { (x : Self) → links (rest x) ≡ record { next = None; prev = None; part = Unused } };

    ghost whole: { (x y : Self) → links x ≡ links y → rest x ≡ rest y → x ≡ y };
}

// The part that the record at `at` is in, none past the table.
pub fn part_at<R: Linked>(table: &[R], at: usize) -> Option<Part>
    ensures { MatchOption result (length table.now ≤ at) (λ part. (at < length table.now) × (part ≡ slice_index_or (parts R.Linked.links table.now) at Unused)) }
{
    table.get(at).map(|record| record.links().part)
}

// The place of `at` in the list that begins at `first`, counted from 1, and none where it is not in it.
//
// It follows the links, in a loop that yields the depth by `break`, a form that the product asks for, and takes no more steps
// than the table has records. Whatever the links are,
// a place that it gives is one at which they lead to `at`.
pub fn depth<R: Linked>(table: &[R], first: Option<usize>, at: usize) -> Option<usize>
    ensures counted { IfSome result (λ d. 0 < d) }
    ensures bound { IfSome result (λ d. d ≤ length table.now) }
    ensures reached { IfSome result (λ d. stepped (nexts R.Linked.links table.now) (d - 1) first ≡ Some at) }
    ensures place { (bs : List ℕ) → Chain (nexts R.Linked.links table.now) (length table.now) first bs → length bs ≤ length table.now → result ≡ place_in at bs }
{
    let mut here = first;
    let mut walked: usize = 0;
    loop {
        let Some(p) = here else {
            break None;
        };
        if walked >= table.len() || p >= table.len() {
            break None;
        }
        walked += 1;
        if p == at {
            break Some(walked);
        }
        here = table[p].links().next;
    }
}

// Where a list begins and ends.
#[derive(Clone, Copy)]
pub struct Ends {
    pub first: Option<usize>,
    pub last: Option<usize>,
}

impl Ends {
    // The ends of a list that has nothing in it, in whatever table. A `Default` would not promise the list.
    pub fn empty() -> Ends
        ensures { (ns ps : List (Option ℕ)) (n : ℕ) → Holds ns ps n result.first result.last [] }
    {
        Ends {
            first: None,
            last: None,
        }
    }

    // Has `to` follow `at`, and begin the list where there is no `at`.
    // By an index: of a slice that `get_mut` lent from, a proof knows the length alone.
    fn follow<R: Linked>(&mut self, table: &mut [R], at: Option<usize>, to: Option<usize>)
        ensures next { nexts R.Linked.links table.new ≡ set_link (nexts R.Linked.links table.old) at to }
        ensures prev { prevs R.Linked.links table.new ≡ prevs R.Linked.links table.old }
        ensures same { SameButLinks R.Linked.links R.Linked.rest table.old table.new }
        ensures first { self.new.first ≡ end_link self.old.first at to }
        ensures last { self.new.last ≡ self.old.last }
    {
        match at {
            None => self.first = to,
            Some(q) => {
                if q < table.len() {
                    let record = &mut table[q];
                    record.set_links(Links {
                        next: to,
                        ..record.links()
                    });
                }
            }
        }
    }

    // Has `to` precede `at`, and end the list where there is no `at`.
    // One function for both ways would ask in each line, and in each clause, which way it goes.
    fn precede<R: Linked>(&mut self, table: &mut [R], at: Option<usize>, to: Option<usize>)
        ensures next { nexts R.Linked.links table.new ≡ nexts R.Linked.links table.old }
        ensures prev { prevs R.Linked.links table.new ≡ set_link (prevs R.Linked.links table.old) at to }
        ensures same { SameButLinks R.Linked.links R.Linked.rest table.old table.new }
        ensures first { self.new.first ≡ self.old.first }
        ensures last { self.new.last ≡ end_link self.old.last at to }
    {
        match at {
            None => self.last = to,
            Some(q) => {
                if q < table.len() {
                    let record = &mut table[q];
                    record.set_links(Links {
                        prev: to,
                        ..record.links()
                    });
                }
            }
        }
    }

    // Takes `p` out of the list. A `p` past the table changes nothing.
    pub fn unlink<R: Linked>(&mut self, table: &mut [R], p: usize)
        ensures list { (xs ys : List ℕ) → HeldIn R.Linked.links table.old self.old (xs ++ (p ∷ ys)) → HeldIn R.Linked.links table.new self.new (xs ++ ys) }
        ensures same { SameButLinks R.Linked.links R.Linked.rest table.old table.new }
        ensures past { length table.old ≤ p → (table.new ≡ table.old) × (self.new ≡ self.old) }
    {
        if p >= table.len() {
            return;
        }
        let Links { next, prev, .. } = table[p].links();
        self.follow(table, prev, next);
        self.precede(table, next, prev);
    }

    // Puts `p`, which is not in the list, in front of it. A `p` past the table changes nothing.
    pub fn push_front<R: Linked>(&mut self, table: &mut [R], p: usize)
        ensures list { (bs : List ℕ) → HeldIn R.Linked.links table.old self.old bs → p < length table.old → occ p bs ≡ 0 → HeldIn R.Linked.links table.new self.new (p ∷ bs) }
        ensures same { SameButLinks R.Linked.links R.Linked.rest table.old table.new }
        ensures past { length table.old ≤ p → (table.new ≡ table.old) × (self.new ≡ self.old) }
    {
        if p >= table.len() {
            return;
        }
        let old = self.first;
        self.follow(table, None, Some(p));
        self.precede(table, Some(p), None);
        self.follow(table, Some(p), old);
        self.precede(table, old, Some(p));
    }
}
