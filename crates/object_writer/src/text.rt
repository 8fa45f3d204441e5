//! Texts that are being written, seen as their tokens.
ghost use Rattle.std.specs.Prelude.{◌≡◌, [], ◌∷◌, ◌++◌, IfOk, OnOk, IsUtf8, decimal};
ghost use Rattle.json.specs.Token.{key, begin_object, end_object, begin_array, end_array};
ghost use Rattle.json.specs.Print.{print};
ghost use Rattle.json_tree.specs.declared.value.Json.{Null, Bool, Int, Nat, Str};
ghost use Rattle.object_writer.specs.Tokens.{with_value};

use json::Writer;
use std::alloc::{AllocError, Global};
use std::marker::Model;

/// The memory, in bytes, that a text begins with: most objects are no longer.
const FIRST_ROOM: usize = 2048;

/// A JSON text that is being written. Contracts see it as the list of the tokens that were written.
#[derive(Drop)]
pub struct JsonText {
    writer: Writer,
}

impl Model for JsonText {
    ghost use Rattle.std.specs.Prelude.{List, ◌≡◌, []};
    ghost use Rattle.json.specs.Token.{Token, tokens_code};

    ghost Value = { List Token };

    ghost coded = { tokens_code };

    ghost view = { λ t. t.writer.tokens };

    ghost invariant = { λ t. t.writer.before ≡ [] };
}

impl JsonText {
    /// A text with nothing in it.
    pub fn new(alloc: Global) -> Result<JsonText, AllocError>
        ensures { IfOk result (λ text. text ≡ []) }
    {
        let writer = Writer::new(Vec::with_capacity(alloc, FIRST_ROOM)?);
        Ok(JsonText { writer })
    }

    /// The bytes of the text.
    pub fn into_bytes(self) -> Vec<u8>
        ensures text { result.items ≡ print self }
        ensures utf8 { IsUtf8 result.items }
    {
        self.writer.into_inner()
    }

    /// Writes the name of a member.
    pub fn name(&mut self, name: &str) -> Result<(), AllocError>
        ensures { OnOk result (self.new ≡ self.old ++ key name.now ∷ []) }
    {
        self.writer.key(name)
    }

    /// Writes the brace that opens an object.
    pub fn open_object(&mut self) -> Result<(), AllocError>
        ensures { OnOk result (self.new ≡ self.old ++ begin_object ∷ []) }
    {
        self.writer.begin_object()
    }

    /// Writes the brace that closes an object.
    pub fn close_object(&mut self) -> Result<(), AllocError>
        ensures { OnOk result (self.new ≡ self.old ++ end_object ∷ []) }
    {
        self.writer.end_object()
    }

    /// Writes the bracket that opens an array.
    pub fn open_array(&mut self) -> Result<(), AllocError>
        ensures { OnOk result (self.new ≡ self.old ++ begin_array ∷ []) }
    {
        self.writer.begin_array()
    }

    /// Writes the bracket that closes an array.
    pub fn close_array(&mut self) -> Result<(), AllocError>
        ensures { OnOk result (self.new ≡ self.old ++ end_array ∷ []) }
    {
        self.writer.end_array()
    }

    /// Writes null.
    pub fn null(&mut self) -> Result<(), AllocError>
        ensures { OnOk result (self.new ≡ with_value Null self.old) }
    {
        self.writer.null()
    }

    /// Writes true or false.
    pub fn truth(&mut self, truth: bool) -> Result<(), AllocError>
        ensures { OnOk result (self.new ≡ with_value (Bool truth) self.old) }
    {
        self.writer.boolean(truth)
    }

    /// Writes a number that may be below 0.
    pub fn signed(&mut self, number: i64) -> Result<(), AllocError>
        ensures { OnOk result (self.new ≡ with_value (Int number) self.old) }
    {
        self.writer.i64(number)
    }

    /// Writes a number.
    pub fn number(&mut self, number: u64) -> Result<(), AllocError>
        ensures { OnOk result (self.new ≡ with_value (Nat number) self.old) }
    {
        self.writer.u64(number)
    }

    /// Writes a text.
    pub fn text(&mut self, text: &str) -> Result<(), AllocError>
        ensures { OnOk result (self.new ≡ with_value (Str text.now) self.old) }
    {
        self.writer.string(text)
    }

    /// Writes the digits of a number as a text.
    pub fn digits(&mut self, number: u64) -> Result<(), AllocError>
        ensures { OnOk result (self.new ≡ with_value (Str (decimal number)) self.old) }
    {
        self.writer.quoted_u64(number)
    }
}
