//! The lines of faults.

ghost use Rattle.std.specs.Prelude.{◌≡◌, ◌+◌, ◌≤◌, ◌++◌, None, Some, length};
ghost use Rattle.table_faults.specs.FaultText.{clash_words, fault_line, rule_line, rule_words};

use crate::Fault;
use arrayvec::ArrayString;
use itoa::Integer;
use seam_traces::Clash;

/// The line of a fault, with its line feed: `label 201 rule 4`, and for a clash
/// `label 201 rule 6 facet 3 against label 60 facet 2`.
pub fn fault_text(fault: &Fault) -> ArrayString<128>
    ensures { result.bytes ≡ fault_line fault.now }
{
    match fault.clash {
        None => rule_text(fault.label, fault.rule),
        Some(clash) => clash_text(fault.label, fault.rule, clash),
    }
}

/// The line of a label that fails a rule.
fn rule_text(label: u32, rule: u8) -> ArrayString<128>
    ensures { result.bytes ≡ rule_line label rule None }
{
    let mut text = label_and_rule(label, rule);
    text.push_str("\n");
    text
}

/// The line of a label that clashes with another.
fn clash_text(label: u32, rule: u8, clash: Clash) -> ArrayString<128>
    ensures { result.bytes ≡ rule_line label rule (Some clash) }
{
    let mut text = label_and_rule(label, rule);
    push_clash(&mut text, clash);
    text.push_str("\n");
    text
}

/// A label and a rule in words.
fn label_and_rule(label: u32, rule: u8) -> ArrayString<128>
    ensures words { result.bytes ≡ rule_words label rule }
    ensures short { length result.bytes ≤ 32 }
{
    let mut text = ArrayString::new();
    push_counted(&mut text, "label ", label);
    push_counted(&mut text, " rule ", rule);
    text
}

/// Adds a clash in words.
fn push_clash(text: &mut ArrayString<128>, clash: Clash)
    requires { length text.old.bytes ≤ 32 }
    ensures words { text.new.bytes ≡ text.old.bytes ++ clash_words (Some clash) }
    ensures short { length text.new.bytes ≤ 96 }
{
    push_counted(text, " facet ", clash.facet);
    push_counted(text, " against label ", clash.other);
    push_counted(text, " facet ", clash.other_facet);
}

/// Adds words and a number.
fn push_counted<I: Integer>(text: &mut ArrayString<128>, words: &str, number: I)
    requires { length text.old.bytes + length words.now + I.MAX_STR_LEN ≤ 128 }
    ensures words { text.new.bytes ≡ text.old.bytes ++ words.now ++ I.text number }
    ensures short { length text.new.bytes ≤ length text.old.bytes + length words.now + I.MAX_STR_LEN }
{
    text.push_str(words);
    let mut digits = itoa::Buffer::new();
    text.push_str(digits.format(number));
}
