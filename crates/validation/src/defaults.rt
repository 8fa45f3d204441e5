//! The defaults of manifests.
ghost use Rattle.std.specs.Prelude.{◌≡◌, IfOk, map};
ghost use Rattle.validation.specs.Defaults.{default_target, default_template, service_targets, default_spec, defaults_of, latest_target, KeepsGiven};

use crate::emptiness::is_empty;
use json_tree::{Seq, Text};
use resource_types::{Manifest, ManifestSpec, Target, Template};
use std::alloc::{AllocError, Global};

/// How long a request may take where a template doesn't say, in seconds.
const STANDARD_TIMEOUT: u64 = 300;

/// The manifest with its defaults filled in, after the Knative Serving API:
///
/// - a template without `containerConcurrency` gets 0, which is no limit; one without `timeoutSeconds` gets 300;
/// - a Service without targets gets one on its latest Revision with 100 percent;
/// - a target without `latestRevision` gets true exactly where it names no Revision; one without `percent` gets 0.
///
/// What is given isn't changed, and a second time nothing is.
#[tactic(auto, using(crate::proofs::Filled::defaults_again, crate::proofs::Given::keeps_given))]
pub fn with_defaults(alloc: Global, manifest: Manifest) -> Result<Manifest, AllocError>
    ensures filled { IfOk result (λ full. full ≡ defaults_of manifest) }
    ensures idempotent { IfOk result (λ full. defaults_of full ≡ full) }
    ensures given_stays { IfOk result (λ full. KeepsGiven manifest full) }
{
    let spec = default_spec(alloc, manifest.spec)?;
    Ok(Manifest {
        api: manifest.api,
        kind: manifest.kind,
        name: manifest.name,
        namespace: manifest.namespace,
        version: manifest.version,
        labels: manifest.labels,
        annotations: manifest.annotations,
        spec,
    })
}

fn default_spec(alloc: Global, spec: ManifestSpec) -> Result<ManifestSpec, AllocError>
    ensures { IfOk result (λ full. full ≡ default_spec spec) }
{
    match spec {
        ManifestSpec::Service { template, traffic } => {
            let template = default_template(template);
            let traffic = service_targets(alloc, traffic)?;
            Ok(ManifestSpec::Service { template, traffic })
        }
        ManifestSpec::Configuration { template } => {
            let template = default_template(template);
            Ok(ManifestSpec::Configuration { template })
        }
        ManifestSpec::Route { traffic } => {
            let traffic = default_targets(traffic);
            Ok(ManifestSpec::Route { traffic })
        }
    }
}

fn default_template(template: Template) -> Template
    ensures { result ≡ default_template template }
{
    let mut template = template;
    template.spec.concurrency = Some(template.spec.concurrency.unwrap_or(0));
    template.spec.timeout = Some(template.spec.timeout.unwrap_or(STANDARD_TIMEOUT));
    template
}

fn service_targets(alloc: Global, targets: Seq<Target>) -> Result<Seq<Target>, AllocError>
    ensures { IfOk result (λ full. full ≡ service_targets targets) }
{
    if targets.len() > 0 {
        return Ok(default_targets(targets));
    }
    let mut targets = targets;
    let target = latest_target(alloc)?;
    targets.push(target)?;
    Ok(targets)
}

fn latest_target(alloc: Global) -> Result<Target, AllocError>
    ensures { IfOk result (λ target. target ≡ latest_target) }
{
    Ok(Target {
        configuration: Text::new(alloc, "")?,
        revision: Text::new(alloc, "")?,
        latest: Some(true),
        percent: Some(100),
        tag: Text::new(alloc, "")?,
        url: Text::new(alloc, "")?,
    })
}

fn default_targets(targets: Seq<Target>) -> Seq<Target>
    ensures { result ≡ map default_target targets }
{
    let mut targets = targets;
    for index in 0..targets.len() {
        fill(targets.at_mut(index));
    }
    targets
}

fn fill(target: &mut Target)
    ensures { target.new ≡ default_target target.old }
{
    let latest = target.latest.unwrap_or(is_empty(&target.revision));
    target.latest = Some(latest);
    target.percent = Some(target.percent.unwrap_or(0));
}
