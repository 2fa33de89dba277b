// Which rules' labels a client may see (document 02, Note 6), and their grams (Note 8): a lent list of the labels' rows, looked up for each
// rule in the rows of work.
#![tactic(auto)]

ghost use Rattle.std.specs.Prelude.{◌≡◌, cond, ◌+◌, ◌*◌, ◌≤◌, length};
ghost use Rattle.model.specs.Walk.{label};
ghost use Rattle.work_rows.specs.Rows.{row_length, rule_in};
ghost use Rattle.count_weights.specs.Weights.{own_weight};
ghost use Rattle.copy_variants.specs.Variants.{seen_in};
ghost use Rattle.label_annotate.specs.Annotated.{marked, Annotatable, Annotated};

use label_rows::LabelRow;
use rule::Rule;

// The label of the rule in row r, and 0 where it has none.
#[tactic(auto, unfolding(model::specs::Walk::label))]
fn label_at(work: &[u8], r: u16) -> u32
    requires { row_length * (r + 1) ≤ length work.now }
    ensures { result ≡ label (rule_in work.now r) }
{
    match work_rows::rule_at(work, r) {
        Rule::Node { label, .. } | Rule::Part { label, .. } => label,
        _ => 0,
    }
}

// Whether a rule's label may be seen, where that is known of the label; a rule that has none may.
#[tactic(auto, unfolding(copy_variants::specs::Variants::seen_in))]
fn seen(rule: Rule, visible: bool) -> bool
    ensures { result ≡ seen_in (λ a. visible) rule }
{
    match rule {
        Rule::Node { .. } | Rule::Part { .. } => visible,
        _ => true,
    }
}

// The grams of a rule's own label, where those of the label are known; 0 of a rule that has none.
#[tactic(auto, unfolding(count_weights::specs::Weights::own_weight))]
fn own(rule: Rule, grams: u16) -> u16
    ensures { result ≡ own_weight (λ a. grams) rule }
{
    match rule {
        Rule::Node { .. } | Rule::Part { .. } => grams,
        _ => 0,
    }
}

// The word that says whether a label may be seen.
fn seen_word(visible: bool) -> u16
    ensures { result ≡ cond visible 1 0 }
{
    if visible {
        copy_rows::SEEN
    } else {
        copy_rows::HIDDEN
    }
}

// Row r says whether a client of a class may see its rule's label, which is of the class found, and has the label's grams.
fn mark_row(work: &mut [u8], r: u16, found: u16, grams: u16, class: u16)
    requires { row_length * (r + 1) ≤ length work.old }
    ensures { work.new ≡ marked work.old r found grams class }
{
    let rule = work_rows::rule_at(work, r);
    let own = own(rule, grams);
    let visible = seen(rule, found <= class);
    work_rows::put16(work, r, count_weights::AT_WEIGHT, own);
    work_rows::put16(work, r, copy_rows::AT_SEEN, seen_word(visible));
}

// Each row says whether a client of a class may see its rule's label, and has the label's grams: the label's row is looked up in the list.
pub fn annotate(rows: &[LabelRow], class: u16, work: &mut [u8], n: u16)
    requires { Annotatable rows.now n work.old }
    ensures { Annotated rows.now class n work.old work.new }
{
    for r in 0..n {
        let label = label_at(work, r);
        let row = label_rows::find(rows, label);
        mark_row(work, r, row.class, row.grams, class);
    }
}
