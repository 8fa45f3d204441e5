//! Texts, seen as their bytes.
ghost use Rattle.std.specs.Prelude.{◌≡◌, ◌↔◌, [], true, IsTrue, IsUtf8, IfOk, bytes_eq, string_bytes, Some, refl};
ghost use Rattle.std.specs.Cmp.{partial_equiv_from_equiv};
ghost use Rattle.std.specs.Cmp.Lexicographic.{slice_cmp};
ghost use Rattle.std.specs.Cmp.Lexicographic.{nat_list_eq_equiv, nat_list_cmp_total, texts_ties, texts_po};
ghost use Rattle.std.specs.Ordering.{nat_cmp};

use arrayvec::ArrayString;
use std::alloc::{AllocError, Global};
use std::cmp::Ordering;
use std::fmt;
use std::marker::Model;

/// The most bytes of a text that lies in the value itself: the names of almost all fields are shorter.
const SHORT: usize = 24;

/// Where the bytes of a text are.
#[derive(Debug, Drop)]
enum Kept {
    /// In the value itself.
    Short(ArrayString<SHORT>),
    /// In memory of their own.
    Long(String),
}

/// A text of its own. Contracts see it as the list of its bytes, which are always UTF-8.
///
/// `==` and `<` compare the bytes, so two texts are equal exactly where contracts see the same list. At most 24 bytes that
/// are copied into one lie in the value itself.
#[derive(Debug)]
pub struct Text {
    kept: Kept,
}

impl Model for Text {
    ghost use Rattle.std.specs.Prelude.{List, ℕ};
    ghost use Rattle.json_tree.specs.Kept.{bytes_of};

    ghost Value = { List ℕ };

    ghost view = { λ t. bytes_of t.kept };
}

impl Text {
    /// A text with the bytes of `text`.
    pub fn new(alloc: Global, text: &str) -> Result<Text, AllocError>
        ensures { IfOk result (λ made. made ≡ text.now) }
    {
        let kept = match ArrayString::from(text) {
            Ok(short) => Kept::Short(short),
            Err(_) => Kept::Long(String::from_str(alloc, text)?),
        };
        Ok(Text { kept })
    }

    /// The text of a `String`, which is moved and not copied.
    pub fn from_string(text: String) -> Text
        ensures { result ≡ string_bytes text }
    {
        Text {
            kept: Kept::Long(text),
        }
    }

    /// A copy in new memory.
    pub fn copy(&self, alloc: Global) -> Result<Text, AllocError>
        ensures { IfOk result (λ copy. copy ≡ self.now) }
    {
        Text::new(alloc, self.as_str())
    }

    /// The text, borrowed.
    pub fn as_str(&self) -> &str
        ensures { result.now ≡ self.now }
    {
        match &self.kept {
            Kept::Short(short) => short.as_str(),
            Kept::Long(long) => long.as_str(),
        }
    }

    /// The bytes, which are UTF-8.
    pub fn bytes(&self) -> &[u8]
        ensures value { result.now ≡ self.now }
        ensures utf8 { IsUtf8 self.now }
    {
        let text = self.as_str();
        text.as_bytes()
    }

    /// Whether it has the bytes of `text`.
    pub fn is(&self, text: &str) -> bool
        ensures { IsTrue result ↔ (self.now ≡ text.now) }
    {
        self.as_str() == text
    }

    /// Whether it has no bytes.
    pub fn is_empty(&self) -> bool
        ensures { IsTrue result ↔ (self.now ≡ []) }
    {
        self.as_str().is_empty()
    }
}

/// A call of its own, so that a function that drops texts doesn't depend on where their bytes are.
impl Drop for Text {
    fn drop(self) {
        let Text { kept: _kept } = self;
    }
}

/// A clone is an equal text, in memory of the allocator that the text keeps, where it needs some.
impl Clone for Text {
    ghost use Rattle.std.specs.Prelude.{◌≡◌};

    ghost is_clone = { λ t u. u ≡ t };

    fn clone(&self) -> Result<Text, AllocError> {
        let kept = match &self.kept {
            Kept::Short(short) => Kept::Short(*short),
            Kept::Long(long) => Kept::Long(long.clone()?),
        };
        Ok(Text { kept })
    }
}

impl fmt::Display for Text {
    fn fmt<W: fmt::Write>(&self, f: &mut fmt::Formatter<W>) -> fmt::Result {
        f.write_str(self.as_str())
    }
}

impl PartialEq for Text {
    ghost eq = { bytes_eq };

    ghost laws = { partial_equiv_from_equiv nat_list_eq_equiv };

    fn eq(&self, other: &Text) -> bool {
        self.as_str() == other.as_str()
    }
}

impl Eq for Text {
    ghost laws = { nat_list_eq_equiv };
}

impl PartialOrd for Text {
    ghost partial_cmp = { λ a b. Some (slice_cmp nat_cmp a b) };

    ghost laws = { texts_po };

    fn partial_cmp(&self, other: &Text) -> Option<Ordering> {
        Some(self.cmp(other))
    }
}

impl Ord for Text {
    ghost cmp = { slice_cmp nat_cmp };

    ghost total = { nat_list_cmp_total };

    ghost matches_partial_cmp = { λ a b. refl };

    ghost matches_eq = { texts_ties };

    fn cmp(&self, other: &Text) -> Ordering {
        self.as_str().cmp(other.as_str())
    }
}
