//! The fields of control bodies, and their paths.
ghost use Rattle.std.specs.Prelude.{◌≡◌, IfOk};
ghost use Rattle.control_bodies.specs.Paths.{side_name, part_end, path_bytes};

use json_tree::Text;
use std::alloc::{AllocError, Global};

/// A part of a Revision that a report speaks of.
#[derive(Clone, Copy, Debug, Drop, PartialEq, Eq)]
pub enum Side {
    /// `resourcesAvailable`: what the Revision runs on.
    Resources,
    /// `containerHealthy`: its container.
    Container,
}

/// A field of a part, in the order in which they are examined.
#[derive(Clone, Copy, Debug, Drop, PartialEq, Eq)]
pub enum PartField {
    /// The part itself, an object.
    Whole,
    /// `status`: `True`, `False` or `Unknown`.
    Status,
    /// `reason`: a text, or absent.
    Reason,
    /// `message`: a text, or absent.
    Message,
}

/// A field of a control body. [`path_text`] gives its path.
#[derive(Clone, Copy, Debug, Drop, PartialEq, Eq)]
pub enum Field {
    /// The body itself, an object.
    Body,
    /// `revisionName` of a report: a text.
    RevisionName,
    /// A field of a part of a report.
    Part(Side, PartField),
    /// `now` of a clock: a moment, as whole seconds from 1970 or as text.
    Now,
    /// `controller` of a step: the word of a controller.
    Controller,
    /// `name` of a step: a text.
    Name,
    /// `namespace` of a report and of a step: a label of at most 63 bytes, or absent.
    Namespace,
}

impl Side {
    /// The name of the part in a report.
    pub fn name(self) -> &'static str
        ensures { result.now ≡ side_name self }
    {
        match self {
            Side::Resources => "resourcesAvailable",
            Side::Container => "containerHealthy",
        }
    }
}

impl PartField {
    /// What stands behind the part's name in the path of the field.
    fn end(self) -> &'static str
        ensures { result.now ≡ part_end self }
    {
        match self {
            PartField::Whole => "",
            PartField::Status => ".status",
            PartField::Reason => ".reason",
            PartField::Message => ".message",
        }
    }
}

/// The path of a field, as messages give it, such as `containerHealthy.status`.
pub fn path_text(alloc: Global, field: Field) -> Result<Text, AllocError>
    ensures { IfOk result (λ path. path ≡ path_bytes field) }
{
    let path = match field {
        Field::Body => "body",
        Field::RevisionName => "revisionName",
        Field::Part(side, part) => return part_text(alloc, side, part),
        Field::Now => "now",
        Field::Controller => "controller",
        Field::Name => "name",
        Field::Namespace => "namespace",
    };
    Text::new(alloc, path)
}

fn part_text(alloc: Global, side: Side, part: PartField) -> Result<Text, AllocError>
    ensures { IfOk result (λ path. path ≡ path_bytes (Field.Part side part)) }
{
    let mut path = String::from_str(alloc, side.name())?;
    path.push_str(part.end())?;
    Ok(Text::from_string(path))
}
