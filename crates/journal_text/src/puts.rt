//! The text of what a client put.
ghost use Rattle.std.specs.Prelude.{◌≡◌, IsTrue, IfOk, Some};
ghost use Rattle.serde_json.specs.Read.{read};
ghost use Rattle.json_tree.specs.Tree.{data_of};
ghost use Rattle.resource_types.specs.Objects.{is_of_client};
ghost use Rattle.resource_codec.specs.Storable.{IsStorable};
ghost use Rattle.resource_codec.specs.Written.{IsWell, written};
ghost use Rattle.journal_text.specs.Lines.{unversioned, manifest_text, put_text};

use json_tree::{Text, write_json};
use resource_codec::encode_manifest;
use resource_types::{Manifest, Object, manifest_of};
use std::alloc::{AllocError, Global};

/// What a client would write of an object, whatever its version.
fn unversioned(alloc: Global, object: &Object) -> Result<Manifest, AllocError>
    requires { IsTrue (is_of_client object.now) }
    ensures { IfOk result (λ manifest. manifest ≡ unversioned object.now) }
{
    let mut manifest = manifest_of(alloc, object)?;
    manifest.version = Text::new(alloc, "")?;
    Ok(manifest)
}

/// A manifest as a text of compact JSON.
pub fn manifest_text(alloc: Global, manifest: &Manifest) -> Result<Text, AllocError>
    requires { IsWell manifest.now }
    ensures text { IfOk result (λ text. text ≡ manifest_text manifest.now) }
    // It is read again as what is written of the manifest.
    ensures again { IfOk result (λ text. read text ≡ Some (data_of (written manifest.now))) }
{
    let json = encode_manifest(alloc, manifest)?;
    let bytes = write_json(alloc, &json)?;
    Ok(Text::from_string(String::from_utf8(bytes).unwrap()))
}

/// The text of what a client would write of an object.
pub(crate) fn put_text(alloc: Global, object: &Object) -> Result<Text, AllocError>
    requires client { IsTrue (is_of_client object.now) }
    requires storable { IsStorable object.now }
    ensures { IfOk result (λ text. text ≡ put_text object.now) }
{
    let manifest = unversioned(alloc, object)?;
    manifest_text(alloc, &manifest)
}
