//! Manifests of namespace `default`.

pub const SERVICE: &str =
    r#"{"kind":"Service","apiVersion":"serving.knative.dev/v1","metadata":{"name":"hello"},"spec":{"template":{"spec":{"containers":[{"image":"img"}]}}}}"#;

/// The Service with another image, over version 1.
pub const SERVICE_IMAGE: &str =
    r#"{"kind":"Service","apiVersion":"serving.knative.dev/v1","metadata":{"name":"hello","resourceVersion":"1"},"spec":{"template":{"spec":{"containers":[{"image":"img2"}]}}}}"#;

/// The Service with another image and a tag, over version 4.
pub const SERVICE_TAG: &str =
    r#"{"kind":"Service","apiVersion":"serving.knative.dev/v1","metadata":{"name":"hello","resourceVersion":"4"},"spec":{"template":{"spec":{"containers":[{"image":"img2"}]}},"traffic":[{"latestRevision":true,"percent":100,"tag":"a"}]}}"#;

pub const CONFIGURATION: &str =
    r#"{"kind":"Configuration","apiVersion":"serving.knative.dev/v1","metadata":{"name":"hello"},"spec":{"template":{"spec":{"containers":[{"image":"img"}]}}}}"#;

/// The Configuration with another image, over version 1.
pub const CONFIGURATION_IMAGE: &str =
    r#"{"kind":"Configuration","apiVersion":"serving.knative.dev/v1","metadata":{"name":"hello","resourceVersion":"1"},"spec":{"template":{"spec":{"containers":[{"image":"img2"}]}}}}"#;

/// The same over version 6.
pub const CONFIGURATION_LATER: &str =
    r#"{"kind":"Configuration","apiVersion":"serving.knative.dev/v1","metadata":{"name":"hello","resourceVersion":"6"},"spec":{"template":{"spec":{"containers":[{"image":"img2"}]}}}}"#;

/// Route `r` on the latest ready Revision of Configuration `hello`.
pub const ROUTE: &str =
    r#"{"kind":"Route","apiVersion":"serving.knative.dev/v1","metadata":{"name":"r"},"spec":{"traffic":[{"configurationName":"hello","percent":100}]}}"#;

/// The same with a tag, over version 10.
pub const ROUTE_TAG: &str =
    r#"{"kind":"Route","apiVersion":"serving.knative.dev/v1","metadata":{"name":"r","resourceVersion":"10"},"spec":{"traffic":[{"configurationName":"hello","percent":100,"tag":"a"}]}}"#;

/// Route `q` on Revision `hello-00001`.
pub const ROUTE_FIRST: &str =
    r#"{"kind":"Route","apiVersion":"serving.knative.dev/v1","metadata":{"name":"q"},"spec":{"traffic":[{"revisionName":"hello-00001","percent":100}]}}"#;
