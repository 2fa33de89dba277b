// The rule of a plan (document 01, "A plan's bytes", and document 02, Note 2): what a record means, by the table of kinds.
#![tactic(auto)]

ghost use Rattle.std.specs.Prelude.{◌≡◌, ◌<◌, ◌&&◌, leb, ltb};
ghost use Rattle.record.specs.Format.{most_label};
ghost use Rattle.rule.specs.Rule.{kind_node, label_in, decode, whole};

use record::{Format, Record};

// A rule as the paper's right-hand side; the numbers are those of the rules it names.
#[derive(Clone, Copy)]
pub enum Rule {
    Empty,
    Pair { first: u16, second: u16 },
    Node { label: u32, under: u16 },
    Fill { outer: u16, inner: u16 },
    Part { label: u32, left: u16, right: u16 },
    Join { outer: u16, inner: u16 },
}

// A rule if its record is well formed.
#[tactic(auto, unfolding(crate::specs::Rule::whole))]
fn whole(fine: bool, rule: Rule) -> Option<Rule>
    ensures { result ≡ whole fine rule }
{
    if fine { Some(rule) } else { None }
}

// Whether two numbers are below a third: whether the larger is.
pub fn both_below(one: u16, two: u16, n: u16) -> bool
    ensures { result ≡ (ltb one n && ltb two n) }
{
    if one < two { two < n } else { one < n }
}

impl Rule {
    // The kinds.
    pub const EMPTY: u16 = 0;

    pub const PAIR: u16 = 1;

    pub const NODE: u16 = 2;

    pub const FILL: u16 = 3;

    pub const PART: u16 = 4;

    pub const JOIN: u16 = 5;

    // What the fifth word counts for in a label.
    pub const HIGH_PART: u32 = 65536;

    // The label of a record that has one: word 1, and the fifth word as its high part.
    #[tactic(auto, unfolding(crate::specs::Rule::label_in))]
    pub fn label(w: Record) -> u32
        ensures { result ≡ label_in w }
    {
        let one = w.one;
        let high = w.high;
        one as u32 + Rule::HIGH_PART * (high as u32)
    }

    // Whether that label is one of the format's.
    pub fn label_fits(w: Record, format: Format) -> bool
        ensures { result ≡ leb (label_in w) (most_label format) }
    {
        let label = Rule::label(w);
        label <= format.most_label()
    }

    // The rule that a record means, or none: the table of kinds.
    pub fn decode(w: Record, format: Format) -> Option<Rule>
        ensures { result ≡ decode format w }
    {
        let kind = w.kind;
        let one = w.one;
        let two = w.two;
        let three = w.three;
        let high = w.high;
        let unused = three == Record::UNUSED;
        let low = high == Record::UNUSED;
        if kind == Rule::EMPTY {
            return whole(
                (one == Record::UNUSED) & (two == Record::UNUSED) & unused & low,
                Rule::Empty,
            );
        }
        if kind == Rule::PAIR {
            return whole(
                unused & low,
                Rule::Pair {
                    first: one,
                    second: two,
                },
            );
        }
        if kind == Rule::NODE {
            let label = Rule::label(w);
            return whole(
                (label <= format.most_label()) & unused,
                Rule::Node { label, under: two },
            );
        }
        Rule::decode_filled(w, format)
    }

    // The same table from kind 3 on: the kinds that have to do with a hole.
    fn decode_filled(w: Record, format: Format) -> Option<Rule>
        requires { kind_node < w.kind }
        ensures { result ≡ decode format w }
    {
        let kind = w.kind;
        let one = w.one;
        let two = w.two;
        let three = w.three;
        let high = w.high;
        let unused = (three == Record::UNUSED) & (high == Record::UNUSED);
        if kind == Rule::FILL {
            return whole(
                unused,
                Rule::Fill {
                    outer: one,
                    inner: two,
                },
            );
        }
        if kind == Rule::PART {
            let label = Rule::label(w);
            return whole(
                label <= format.most_label(),
                Rule::Part {
                    label,
                    left: two,
                    right: three,
                },
            );
        }
        if kind == Rule::JOIN {
            return whole(
                unused,
                Rule::Join {
                    outer: one,
                    inner: two,
                },
            );
        }
        None
    }
}
