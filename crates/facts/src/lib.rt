// What is known of each rule, in rows of the lent work.
#![tactic(auto)]

ghost use Rattle.std.specs.Prelude.{◌≡◌, ◌+◌, ◌-◌, ◌≤◌};
ghost use Rattle.work_rows.specs.Rows.{field};
ghost use Rattle.model.specs.Run.{along, one_above};
ghost use Rattle.model.specs.Model.{outer};
ghost use Rattle.model.specs.Stored.{reaches};
ghost use Rattle.side.specs.Side.{side_of};
ghost use Rattle.facts.specs.Facts.{at_link, link_length, LinkAt, link_in, put_link, facts_in, In, Climbs};
ghost use Rattle.facts.specs.Build.{jump_from, link_from, link_own, Steps};

use rule::Rule;
use side::Side;

// The way of one side from a rule: one step, the end of the longest run, its number of steps, and a rule further on.
#[derive(Clone, Copy)]
pub struct Link {
    pub toward: u16,
    pub last: u16,
    pub depth: u16,
    pub jump: u16,
}

// Rule r itself.
pub fn rule_at(work: &[u8], r: u16) -> Rule
    requires { In work.now r }
    ensures { result ≡ (facts_in work.now).rule r }
{
    work_rows::rule_at(work, r)
}

// What a tree's spine begins with: the B of a fill, else the tree itself.
pub fn outer_at(work: &[u8], a: u16) -> u16
    requires { In work.now a }
    ensures { result ≡ outer (facts_in work.now) a }
{
    let Rule::Fill { outer, .. } = rule_at(work, a) else {
        return a;
    };
    outer
}

// The representative of rule r.
pub fn representative_at(work: &[u8], r: u16) -> u16
    requires { In work.now r }
    ensures { result ≡ (facts_in work.now).representative r }
{
    work_rows::field16(work, r, Link::REPRESENTATIVE)
}

// Is rule r without trees?
pub fn is_empty_at(work: &[u8], r: u16) -> bool
    requires { In work.now r }
    ensures { result ≡ (facts_in work.now).is_empty r }
{
    work_rows::field16(work, r, Link::EMPTINESS) == 1
}

// Where a row keeps the link of a side.
#[tactic(auto, unfolding(side::specs::Side::side_of))]
fn link_offset(side: Side) -> usize
    ensures { LinkAt (side_of side) result }
{
    match side {
        Side::Left => Link::LEFT,
        Side::Right => Link::RIGHT,
    }
}

// A word of the link of a side in row r.
fn word_at(work: &[u8], side: Side, r: u16, word: usize) -> u16
    requires { In work.now r × (word + 2 ≤ link_length) }
    ensures { result ≡ field 2 work.now r (at_link (side_of side) + word) }
{
    work_rows::field16(work, r, link_offset(side) + word)
}

// One step from rule r.
pub fn toward_at(work: &[u8], side: Side, r: u16) -> u16
    requires { In work.now r }
    ensures { result ≡ (facts_in work.now).toward (side_of side) r }
{
    word_at(work, side, r, Link::TOWARD)
}

// The end of the longest run from rule r.
pub fn last_at(work: &[u8], side: Side, r: u16) -> u16
    requires { In work.now r }
    ensures { result ≡ (facts_in work.now).last (side_of side) r }
{
    word_at(work, side, r, Link::LAST)
}

// The number of steps of the longest run from rule r.
pub fn depth_at(work: &[u8], side: Side, r: u16) -> u16
    requires { In work.now r }
    ensures { result ≡ (facts_in work.now).depth (side_of side) r }
{
    word_at(work, side, r, Link::DEPTH)
}

// A rule further on the way from rule r.
#[tactic(auto, unfolding(crate::specs::Facts::link_in))]
fn jump_at(work: &[u8], side: Side, r: u16) -> u16
    requires { In work.now r }
    ensures { result ≡ (link_in work.now (side_of side) r).jump }
{
    word_at(work, side, r, Link::JUMP)
}

impl Link {
    // Where a row keeps the representative of its rule, its emptiness, and the link of each side.
    pub const REPRESENTATIVE: usize = 10;

    pub const EMPTINESS: usize = 12;

    const LEFT: usize = 14;

    const RIGHT: usize = 22;

    // Where a link keeps its words.
    const TOWARD: usize = 0;

    const LAST: usize = 2;

    const DEPTH: usize = 4;

    const JUMP: usize = 6;

    // The link of a side in row r.
    pub fn read(work: &[u8], side: Side, r: u16) -> Link
        requires { In work.now r }
        ensures { result ≡ link_in work.now (side_of side) r }
    {
        Link {
            toward: word_at(work, side, r, Link::TOWARD),
            last: word_at(work, side, r, Link::LAST),
            depth: word_at(work, side, r, Link::DEPTH),
            jump: word_at(work, side, r, Link::JUMP),
        }
    }

    // The link into row r.
    pub fn write(self, work: &mut [u8], side: Side, r: u16)
        requires { In work.old r }
        ensures { work.new ≡ put_link work.old (side_of side) r self }
    {
        let at = link_offset(side);
        work_rows::put16(work, r, at + Link::TOWARD, self.toward);
        work_rows::put16(work, r, at + Link::LAST, self.last);
        work_rows::put16(work, r, at + Link::DEPTH, self.depth);
        work_rows::put16(work, r, at + Link::JUMP, self.jump);
    }

    // The link of a rule that has no step.
    #[tactic(auto, unfolding(crate::specs::Build::link_own))]
    pub fn own(r: u16) -> Link
        ensures { result ≡ link_own r }
    {
        Link {
            toward: r,
            last: r,
            depth: 0,
            jump: r,
        }
    }

    // The jump of a rule that steps to p: over p's jump and its jump if these are equally long, else p.
    fn jump_from(work: &[u8], side: Side, p: u16) -> u16
        requires { Steps work.now (side_of side) p }
        ensures { result ≡ jump_from work.now (side_of side) p }
    {
        let first = jump_at(work, side, p);
        let second = jump_at(work, side, first);
        let high = depth_at(work, side, p) as u32;
        let middle = depth_at(work, side, first) as u32;
        let low = depth_at(work, side, second) as u32;
        if (middle < high) & (middle + middle == high + low) {
            return second;
        }
        p
    }

    // The link of a rule that steps to p.
    pub fn from(work: &[u8], side: Side, p: u16) -> Link
        requires { Steps work.now (side_of side) p }
        ensures { result ≡ link_from work.now (side_of side) p }
    {
        Link {
            toward: p,
            last: last_at(work, side, p),
            depth: depth_at(work, side, p) + 1,
            jump: Link::jump_from(work, side, p),
        }
    }
}

// The rule on the way of a side from rule a whose longest run has h steps; a itself where its own has no more.
fn level(work: &[u8], side: Side, a: u16, h: usize) -> u16
    requires { Climbs work.now × In work.now a }
    ensures { let t = work.now in
        let F = facts_in t in
        (result ≡ along F (side_of side) (F.depth (side_of side) a - h) a) × In t result }
{
    let mut x = a;
    while h < depth_at(work, side, x) as usize {
        let jump = jump_at(work, side, x);
        if h <= depth_at(work, side, jump) as usize {
            x = jump;
        } else {
            x = toward_at(work, side, x);
        }
    }
    x
}

// The last rule but one of the run from rule a to rule b.
pub fn one_above(work: &[u8], side: Side, a: u16, b: u16) -> u16
    requires { Climbs work.now × In work.now a × In work.now b }
    ensures { (result ≡ one_above (facts_in work.now) (side_of side) a b) × In work.now result }
{
    level(work, side, a, depth_at(work, side, b) as usize + 1)
}

// Is rule b reached from rule a by one or more steps of a side?
pub fn reaches(work: &[u8], side: Side, a: u16, b: u16) -> bool
    requires { Climbs work.now × In work.now a × In work.now b }
    ensures { result ≡ reaches (facts_in work.now) (side_of side) a b }
{
    let high = depth_at(work, side, a);
    let low = depth_at(work, side, b);
    (low < high) & (level(work, side, a, low as usize) == b)
}
