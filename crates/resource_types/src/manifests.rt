//! Manifests: objects as clients write them.
ghost use Rattle.std.specs.Prelude.{◌≡◌, IfOk, IsTrue};
ghost use Rattle.std.specs.Fmt.{decimal};
ghost use Rattle.resource_types.specs.Objects.{is_of_client};
ghost use Rattle.resource_types.specs.Manifests.{api_version, manifest_spec, manifest_of};

use crate::metadata::Labels;
use crate::objects::{Body, Object};
use crate::specification::{Target, Template};
use itoa::Buffer;
use json_tree::{Alike, Copied, Seq, Text};
use std::alloc::{AllocError, Global};

/// The spec of a manifest, by its kind.
#[derive(Debug, Drop, PartialEq)]
pub enum ManifestSpec {
    /// Of a Service.
    Service {
        /// What the Service's Revisions are made of.
        template: Template,
        /// The targets of the Service's Route.
        traffic: Seq<Target>,
    },
    /// Of a Configuration.
    Configuration {
        /// What the Configuration's Revisions are made of.
        template: Template,
    },
    /// Of a Route.
    Route {
        /// The targets.
        traffic: Seq<Target>,
    },
}

/// A Service, a Configuration or a Route as a client writes it. An empty text is an absent one.
#[derive(Debug, Drop, PartialEq)]
pub struct Manifest {
    /// `apiVersion`.
    pub api: Text,
    /// `kind`.
    pub kind: Text,
    /// `metadata.name`, a simple name.
    pub name: Text,
    /// `metadata.namespace`.
    pub namespace: Text,
    /// `metadata.resourceVersion`: the version that is replaced, in decimal.
    pub version: Text,
    /// `metadata.labels`.
    pub labels: Labels,
    /// `metadata.annotations`.
    pub annotations: Labels,
    /// `spec`.
    pub spec: ManifestSpec,
}

/// The group and version of the API: the `apiVersion` of every manifest that is read or written.
pub fn api_version() -> &'static str
    ensures { result.now ≡ api_version }
{
    "serving.knative.dev/v1"
}

/// A number in decimal digits.
pub fn decimal_text(alloc: Global, number: u64) -> Result<Text, AllocError>
    ensures { IfOk result (λ text. text ≡ decimal number) }
{
    let mut digits = Buffer::new();
    Text::new(alloc, digits.format(number))
}

fn manifest_spec(alloc: Global, body: &Body) -> Result<ManifestSpec, AllocError>
    ensures { IfOk result (λ spec. spec ≡ manifest_spec body.now) }
{
    match body {
        Body::Service {
            template,
            traffic,
            ..
        } => Ok(ManifestSpec::Service {
            template: template.copy(alloc)?,
            traffic: traffic.copy(alloc)?,
        }),
        Body::Configuration { template, .. } => Ok(ManifestSpec::Configuration {
            template: template.copy(alloc)?,
        }),
        Body::Route { traffic, .. } => Ok(ManifestSpec::Route {
            traffic: traffic.copy(alloc)?,
        }),
        _ => Ok(ManifestSpec::Route {
            traffic: Seq::new(alloc),
        }),
    }
}

/// The manifest of a Service, a Configuration or a Route: what a client would write to put the object as it stands.
pub fn manifest_of(alloc: Global, object: &Object) -> Result<Manifest, AllocError>
    requires { IsTrue (is_of_client object.now) }
    ensures { IfOk result (λ manifest. manifest ≡ manifest_of object.now) }
{
    Ok(Manifest {
        api: Text::new(alloc, api_version())?,
        kind: Text::new(alloc, object.key.kind.as_str())?,
        name: object.key.name.name.copy(alloc)?,
        namespace: object.key.name.space.copy(alloc)?,
        version: decimal_text(alloc, object.meta.stamp.version)?,
        labels: object.meta.labels.copy(alloc)?,
        annotations: object.meta.annotations.copy(alloc)?,
        spec: manifest_spec(alloc, &object.body)?,
    })
}

impl Copied for ManifestSpec {
    fn copy(&self, alloc: Global) -> Result<ManifestSpec, AllocError> {
        match self {
            ManifestSpec::Service { template, traffic } => Ok(ManifestSpec::Service {
                template: template.copy(alloc)?,
                traffic: traffic.copy(alloc)?,
            }),
            ManifestSpec::Configuration { template } => Ok(ManifestSpec::Configuration {
                template: template.copy(alloc)?,
            }),
            ManifestSpec::Route { traffic } => Ok(ManifestSpec::Route {
                traffic: traffic.copy(alloc)?,
            }),
        }
    }
}

impl Copied for Manifest {
    fn copy(&self, alloc: Global) -> Result<Manifest, AllocError> {
        Ok(Manifest {
            api: self.api.copy(alloc)?,
            kind: self.kind.copy(alloc)?,
            name: self.name.copy(alloc)?,
            namespace: self.namespace.copy(alloc)?,
            version: self.version.copy(alloc)?,
            labels: self.labels.copy(alloc)?,
            annotations: self.annotations.copy(alloc)?,
            spec: self.spec.copy(alloc)?,
        })
    }
}

impl Alike for ManifestSpec {
    fn equals(&self, other: &ManifestSpec) -> bool {
        match (self, other) {
            (
                ManifestSpec::Service {
                    template: a,
                    traffic: s,
                },
                ManifestSpec::Service {
                    template: b,
                    traffic: t,
                },
            ) => a.equals(b) && s.equals(t),
            (
                ManifestSpec::Configuration { template: a },
                ManifestSpec::Configuration { template: b },
            ) => a.equals(b),
            (ManifestSpec::Route { traffic: s }, ManifestSpec::Route { traffic: t }) => s.equals(t),
            _ => false,
        }
    }
}

impl Alike for Manifest {
    fn equals(&self, other: &Manifest) -> bool {
        self.api.equals(&other.api)
            && self.kind.equals(&other.kind)
            && self.name.equals(&other.name)
            && self.namespace.equals(&other.namespace)
            && self.version.equals(&other.version)
            && self.labels.equals(&other.labels)
            && self.annotations.equals(&other.annotations)
            && self.spec.equals(&other.spec)
    }
}
