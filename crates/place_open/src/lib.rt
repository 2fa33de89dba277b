// The stored place opened: judged (document 01, "Walk", refusal 10), and where the walk then stands. Nothing is written.
#![tactic(auto)]

ghost use Rattle.std.specs.Prelude.{◌≡◌};
ghost use Rattle.rule.specs.Rule.{encode, closed};
ghost use Rattle.forest.specs.Walk.{cells_in, rule_named};
ghost use Rattle.facts.specs.Facts.{row_count, facts_in};
ghost use Rattle.place_cells.specs.Cells.{Lies};
ghost use Rattle.letter_moves.specs.Standing.{WalkedRows};
ghost use Rattle.place_open.specs.Open.{placed, closed_in, Openable, Opens};

use letter_arrival::Standing;
use place_store::Head;
use plan::Checked;
use refusal::Refusal;
use rule::Rule;

// What a stored place comes to: the rule whose forest is walked and where the walk stands in it.
#[derive(Clone, Copy)]
pub struct Opened {
    pub walked: u16,
    pub at: Standing,
}

// The rule that word 1 of cell 0 names (document 02, Note 10): "0 for the start rule, or a rule number plus one".
fn rule_named(word: u16, start: u16) -> u16
    ensures { result ≡ rule_named start word }
{
    if word == 0 {
        return start;
    }
    word - 1
}

// Whether a rule is closed: without a hole.
fn is_closed(rule: Rule) -> bool
    ensures { result ≡ closed (encode rule).kind }
{
    match rule {
        Rule::Empty => true,
        Rule::Pair { .. } => true,
        Rule::Node { .. } => true,
        Rule::Fill { .. } => true,
        Rule::Part { .. } => false,
        Rule::Join { .. } => false,
    }
}

// Whether rule r's forest can be walked: "A number beyond the rules or of a holed rule is refused with 10."
fn can_walk(rows: &[u8], n: u16, r: u16) -> bool
    requires { row_count rows.now ≡ n }
    ensures { result ≡ closed_in (facts_in rows.now) n r }
{
    if r >= n {
        return false;
    }
    is_closed(facts::rule_at(rows, r))
}

// Whether k cells are a place of rule r's forest: above it, or a node's.
fn placed(rows: &[u8], cursor: &[u8], k: usize, r: u16) -> bool
    requires { WalkedRows r rows.now × Lies cursor.now k }
    ensures { result ≡ placed (facts_in rows.now) r (cells_in cursor.now k) }
{
    if k == 0 {
        return true;
    }
    place_check::accepts(rows, cursor, k, r)
}

// The place that a cursor holds, on the rows of an accepted plan's rules: a place that is none is turned down.
pub fn open(rows: &[u8], cursor: &[u8], accepted: Checked) -> Result<Opened, Refusal>
    requires { Openable accepted.start accepted.n rows.now cursor.now }
    ensures { Opens rows.now accepted.n accepted.start cursor.now result }
{
    let head = Head::read(cursor);
    let walked = rule_named(head.word, accepted.start);
    if !(can_walk(rows, accepted.n, walked) & place_store::headed(cursor, accepted.n)) {
        return Err(Refusal::Place);
    }
    let k = head.used as usize;
    if !placed(rows, cursor, k, walked) {
        return Err(Refusal::Place);
    }
    let rule = move_parts::standing(rows, cursor, k);
    let at = Standing { used: k, rule };
    Ok(Opened { walked, at })
}
