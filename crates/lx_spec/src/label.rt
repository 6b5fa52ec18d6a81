//! Labels of cues, groups and submasters.

ghost use Rattle.std.specs.Prelude.{◌≡◌, ℕ, List, [], ◌∷◌, ◌++◌, ◌==◌, ◌||◌};
ghost use Rattle.lx_spec.specs.Text.{label_of};

use arrayvec::ArrayVec;
use lx_base::LABEL_BYTES;
use std::marker::Model;

/// A label of at most `LABEL_BYTES` bytes, without CR and LF, which does not begin with a space or a tab. A label
/// without bytes is no label. Contracts see its bytes.
#[derive(Drop)]
pub struct Label {
    bytes: ArrayVec<u8, LABEL_BYTES>,
}

impl Model for Label {
    ghost use Rattle.std.specs.Prelude.{◌≡◌, List, ℕ};

    ghost Value = { List ℕ };

    ghost use Rattle.lx_spec.specs.Text.{label_of};

    ghost view = { λ l. l.bytes.items };

    ghost invariant = { λ l. label_of l.bytes.items ≡ l.bytes.items };
}

impl PartialEq for Label {
    ghost use Rattle.std.specs.Prelude.{nat_eq};
    ghost use Rattle.std.specs.Cmp.Lexicographic.{pointwise};
    ghost use Rattle.std.proofs.Common.{rules};
    ghost use Rattle.std.specs.Cmp.Rules.{comparing};

    ghost eq = { pointwise nat_eq };

    ghost laws = { Prim.search (comparing, rules) };

    fn eq(&self, other: &Label) -> bool {
        self.bytes.as_slice() == other.bytes.as_slice()
    }
}

impl Eq for Label {
    ghost use Rattle.std.proofs.Common.{rules};
    ghost use Rattle.std.specs.Cmp.Rules.{comparing};

    ghost laws = { Prim.search (comparing, rules) };
}

impl Label {
    ghost use Rattle.std.specs.Prelude.{◌≡◌, ◌≤◌, [], length};
    ghost use Rattle.lx_base.specs.declared.TheConstants.{LABEL_BYTES};
    ghost use Rattle.lx_spec.specs.Text.{label_of};

    /// No label.
    pub fn none() -> Label
        ensures { result ≡ [] }
    {
        Label {
            bytes: ArrayVec::new(),
        }
    }

    /// The label that is made from bytes: every CR and LF is left out, then leading spaces and tabs, and the
    /// first `LABEL_BYTES` bytes of the rest are kept.
    pub fn new(bytes: &[u8]) -> Label
        ensures { result ≡ label_of bytes.now }
    {
        let mut kept = ArrayVec::new();
        for byte in bytes {
            keep(&mut kept, *byte);
        }
        Label { bytes: kept }
    }

    /// An equal label. It takes no memory.
    pub fn copy(&self) -> Label
        ensures { result ≡ self.now }
    {
        let mut bytes = ArrayVec::new();
        for byte in self.bytes.as_slice() {
            bytes.push(*byte);
        }
        Label { bytes }
    }

    /// Its bytes.
    pub fn as_slice(&self) -> &[u8]
        ensures bytes { result.now ≡ self.now }
        ensures few { length result.now ≤ LABEL_BYTES }
        ensures label { label_of result.now ≡ result.now }
    {
        self.bytes.as_slice()
    }
}

/// A label that is lent: the bytes that it is made from, as `Label::new` makes it, where they stand. Contracts see the label.
#[derive(Drop)]
pub struct LabelText<'a> {
    bytes: &'a [u8],
}

impl<'a> Model for LabelText<'a> {
    ghost use Rattle.std.specs.Prelude.{List, ℕ};

    ghost Value = { List ℕ };

    ghost use Rattle.lx_spec.specs.Text.{label_of};

    ghost view = { λ t. label_of t.bytes.now };
}

impl<'a> PartialEq for LabelText<'a> {
    ghost use Rattle.std.specs.Prelude.{nat_eq};
    ghost use Rattle.std.specs.Cmp.Lexicographic.{pointwise};
    ghost use Rattle.std.proofs.Common.{rules};
    ghost use Rattle.std.specs.Cmp.Rules.{comparing};

    ghost eq = { pointwise nat_eq };

    ghost laws = { Prim.search (comparing, rules) };

    fn eq(&self, other: &LabelText<'a>) -> bool {
        self.label() == other.label()
    }
}

impl<'a> Eq for LabelText<'a> {
    ghost use Rattle.std.proofs.Common.{rules};
    ghost use Rattle.std.specs.Cmp.Rules.{comparing};

    ghost laws = { Prim.search (comparing, rules) };
}

impl<'a> LabelText<'a> {
    ghost use Rattle.std.specs.Prelude.{◌≡◌};
    ghost use Rattle.lx_spec.specs.Text.{label_of};

    /// The label that is made from these bytes.
    pub fn new(bytes: &'a [u8]) -> LabelText<'a>
        ensures { result ≡ label_of bytes.now }
    {
        LabelText { bytes }
    }

    /// The label, to be kept. It takes no memory.
    pub fn label(&self) -> Label
        ensures { result ≡ self.now }
    {
        Label::new(self.bytes)
    }
}

/// Where the bytes kept are the label of some bytes, they become the label of these and one more.
#[inline]
fn keep(kept: &mut ArrayVec<u8, LABEL_BYTES>, byte: u8)
    ensures { (front : List ℕ) → kept.old.items ≡ label_of front → kept.new.items ≡ label_of (front ++ byte ∷ []) }
{
    if is_line_end(byte) {
        return;
    }
    if kept.is_full() {
        return;
    }
    if kept.is_empty() && is_blank(byte) {
        return;
    }
    kept.push(byte);
}

#[inline]
fn is_line_end(byte: u8) -> bool
    ensures { result ≡ (byte == 13 || byte == 10) }
{
    byte == b'\r' || byte == b'\n'
}

#[inline]
fn is_blank(byte: u8) -> bool
    ensures { result ≡ (byte == 32 || byte == 9) }
{
    byte == b' ' || byte == b'\t'
}
