//! Fields of an object, which are left out where they are empty.
ghost use Rattle.std.specs.Prelude.{◌≡◌, Some, OnOk, decimal, map};
ghost use Rattle.resource_codec.specs.Written.{text_field, number_field, truth_field, texts_field, text_member};
ghost use Rattle.object_writer.specs.Tokens.{with_field, with_members};

use crate::text::JsonText;
use json_tree::{Table, Text};
use std::alloc::AllocError;

impl JsonText {
    /// Writes a text that isn't empty.
    #[tactic(auto, unfolding(resource_codec::specs::Written::text_field))]
    pub fn text_field(&mut self, name: &str, text: &str) -> Result<(), AllocError>
        ensures { OnOk result (self.new ≡ with_field name.now (text_field text.now) self.old) }
    {
        if text.is_empty() {
            return Ok(());
        }
        self.name(name)?;
        self.text(text)
    }

    /// Writes the digits of a number as a text.
    pub fn digits_field(&mut self, name: &str, number: u64) -> Result<(), AllocError>
        ensures { OnOk result (self.new ≡ with_field name.now (text_field (decimal number)) self.old) }
    {
        self.name(name)?;
        self.digits(number)
    }

    /// Writes a number, if there is one.
    pub fn number_field(&mut self, name: &str, number: Option<u64>) -> Result<(), AllocError>
        ensures { OnOk result (self.new ≡ with_field name.now (number_field number) self.old) }
    {
        match number {
            Some(number) => {
                self.name(name)?;
                self.number(number)
            }
            None => Ok(()),
        }
    }

    /// Writes a truth, if there is one.
    pub fn truth_field(&mut self, name: &str, truth: Option<bool>) -> Result<(), AllocError>
        ensures { OnOk result (self.new ≡ with_field name.now (truth_field truth) self.old) }
    {
        match truth {
            Some(truth) => {
                self.name(name)?;
                self.truth(truth)
            }
            None => Ok(()),
        }
    }

    /// Writes texts under their names.
    pub fn texts(&mut self, texts: &[(Text, Text)]) -> Result<(), AllocError>
        ensures { OnOk result (self.new ≡ with_members (map text_member texts.now) self.old) }
    {
        for text in texts {
            self.name(text.0.as_str())?;
            self.text(text.1.as_str())?;
        }
        Ok(())
    }

    /// Writes an object of texts that isn't empty. Its texts stand as they are, the empty ones too.
    pub fn texts_field(&mut self, name: &str, texts: &Table<Text>) -> Result<(), AllocError>
        ensures { OnOk result (self.new ≡ with_field name.now (texts_field texts.now) self.old) }
    {
        if texts.is_empty() {
            return Ok(());
        }
        self.name(name)?;
        self.open_object()?;
        self.texts(texts.entries())?;
        self.close_object()
    }
}
