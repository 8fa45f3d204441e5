//! What comes over a connection, and what goes back.

/// A Configuration is made.
pub(super) const POST: &[u8] =
    b"POST /apis/serving.knative.dev/v1/namespaces/default/configurations HTTP/1.1\r\nHost: x\r\nContent-Length: 152\r\n\r\n{\"apiVersion\":\"serving.knative.dev/v1\",\"kind\":\"Configuration\",\"metadata\":{\"name\":\"hello\"},\"spec\":{\"template\":{\"spec\":{\"containers\":[{\"image\":\"img\"}]}}}}";

/// A Configuration is made, and then read.
pub(super) const POST_AND_GET: &[u8] =
    b"POST /apis/serving.knative.dev/v1/namespaces/default/configurations HTTP/1.1\r\nHost: x\r\nContent-Length: 152\r\n\r\n{\"apiVersion\":\"serving.knative.dev/v1\",\"kind\":\"Configuration\",\"metadata\":{\"name\":\"hello\"},\"spec\":{\"template\":{\"spec\":{\"containers\":[{\"image\":\"img\"}]}}}}GET /apis/serving.knative.dev/v1/namespaces/default/configurations/hello HTTP/1.1\r\nHost: x\r\n\r\n";

/// The Configuration is read, and close is asked for.
pub(super) const GET_AND_CLOSE: &[u8] =
    b"GET /apis/serving.knative.dev/v1/namespaces/default/configurations/hello HTTP/1.1\r\nHost: x\r\nConnection: close\r\n\r\n";

/// The same Configuration is made, with a member that a later one of its name overwrites.
pub(super) const POST_DOUBLED: &[u8] =
    b"POST /apis/serving.knative.dev/v1/namespaces/default/configurations HTTP/1.1\r\nHost: x\r\nContent-Length: 167\r\n\r\n{\"kind\":\"Route\",\"apiVersion\":\"serving.knative.dev/v1\",\"kind\":\"Configuration\",\"metadata\":{\"name\":\"hello\"},\"spec\":{\"template\":{\"spec\":{\"containers\":[{\"image\":\"img\"}]}}}}";

/// The body is 33 nested arrays.
pub(super) const POST_NESTED: &[u8] =
    b"POST /apis/serving.knative.dev/v1/namespaces/default/configurations HTTP/1.1\r\nHost: x\r\nContent-Length: 66\r\n\r\n[[[[[[[[[[[[[[[[[[[[[[[[[[[[[[[[[]]]]]]]]]]]]]]]]]]]]]]]]]]]]]]]]]";

/// The Configuration was made at moment 0.
pub(super) const CREATED: &[u8] =
    b"HTTP/1.1 201 Created\r\nContent-Type: application/json\r\nContent-Length: 357\r\n\r\n{\"apiVersion\":\"serving.knative.dev/v1\",\"kind\":\"Configuration\",\"metadata\":{\"creationTimestamp\":\"1970-01-01T00:00:00Z\",\"generation\":1,\"name\":\"hello\",\"namespace\":\"default\",\"resourceVersion\":\"1\",\"uid\":\"00000000-0000-4000-8000-000000000001\"},\"spec\":{\"template\":{\"spec\":{\"containerConcurrency\":0,\"containers\":[{\"image\":\"img\"}],\"timeoutSeconds\":300}}},\"status\":{}}";

/// It was made at moment 1,000, and read.
pub(super) const CREATED_AND_READ: &[u8] =
    b"HTTP/1.1 201 Created\r\nContent-Type: application/json\r\nContent-Length: 357\r\n\r\n{\"apiVersion\":\"serving.knative.dev/v1\",\"kind\":\"Configuration\",\"metadata\":{\"creationTimestamp\":\"1970-01-01T00:16:40Z\",\"generation\":1,\"name\":\"hello\",\"namespace\":\"default\",\"resourceVersion\":\"1\",\"uid\":\"00000000-0000-4000-8000-000000000001\"},\"spec\":{\"template\":{\"spec\":{\"containerConcurrency\":0,\"containers\":[{\"image\":\"img\"}],\"timeoutSeconds\":300}}},\"status\":{}}HTTP/1.1 200 OK\r\nContent-Type: application/json\r\nContent-Length: 357\r\n\r\n{\"apiVersion\":\"serving.knative.dev/v1\",\"kind\":\"Configuration\",\"metadata\":{\"creationTimestamp\":\"1970-01-01T00:16:40Z\",\"generation\":1,\"name\":\"hello\",\"namespace\":\"default\",\"resourceVersion\":\"1\",\"uid\":\"00000000-0000-4000-8000-000000000001\"},\"spec\":{\"template\":{\"spec\":{\"containerConcurrency\":0,\"containers\":[{\"image\":\"img\"}],\"timeoutSeconds\":300}}},\"status\":{}}";

/// It was read, and the connection closes.
pub(super) const READ_AND_CLOSED: &[u8] =
    b"HTTP/1.1 200 OK\r\nContent-Type: application/json\r\nContent-Length: 357\r\nConnection: close\r\n\r\n{\"apiVersion\":\"serving.knative.dev/v1\",\"kind\":\"Configuration\",\"metadata\":{\"creationTimestamp\":\"1970-01-01T00:16:40Z\",\"generation\":1,\"name\":\"hello\",\"namespace\":\"default\",\"resourceVersion\":\"1\",\"uid\":\"00000000-0000-4000-8000-000000000001\"},\"spec\":{\"template\":{\"spec\":{\"containerConcurrency\":0,\"containers\":[{\"image\":\"img\"}],\"timeoutSeconds\":300}}},\"status\":{}}";

/// It does not stand, and the connection closes.
pub(super) const NONE_AND_CLOSED: &[u8] =
    b"HTTP/1.1 404 Not Found\r\nContent-Type: application/json\r\nContent-Length: 132\r\nConnection: close\r\n\r\n{\"apiVersion\":\"v1\",\"code\":404,\"kind\":\"Status\",\"message\":\"configurations \\\"hello\\\" not found\",\"reason\":\"NotFound\",\"status\":\"Failure\"}";

/// The body is not readable.
pub(super) const UNREADABLE: &[u8] =
    b"HTTP/1.1 400 Bad Request\r\nContent-Type: application/json\r\nContent-Length: 129\r\n\r\n{\"apiVersion\":\"v1\",\"code\":400,\"kind\":\"Status\",\"message\":\"the body is not readable JSON\",\"reason\":\"BadRequest\",\"status\":\"Failure\"}";

/// The head is too large.
pub(super) const TOO_LARGE: &[u8] =
    b"HTTP/1.1 431 Request Header Fields Too Large\r\nContent-Type: application/json\r\nContent-Length: 123\r\nConnection: close\r\n\r\n{\"apiVersion\":\"v1\",\"code\":431,\"kind\":\"Status\",\"message\":\"the head is too large\",\"reason\":\"HeadTooLarge\",\"status\":\"Failure\"}";
