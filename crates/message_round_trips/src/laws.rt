//! Laws of round trips over HTTP/1.1. The functions do nothing; their contracts are the laws.
ghost use Rattle.message_round_trips.specs.SignedRequests.{SignedRequestsReadBack, MarkedRequestsReadBack};
ghost use Rattle.message_round_trips.specs.SignedFiles.{SignedFilesReadBack};

/// The bytes of `signed_requests::signed_request` and `marked_request` are read by a server as the message that was signed, with its `Content-Length`
/// (RFC 9112).
pub fn signed_requests_read_back()
    ensures plain { SignedRequestsReadBack }
    ensures marked { MarkedRequestsReadBack }
{}

/// What `signed_files::sign_file` answers is read by `signed_files::verify_file` as the message that was signed (RFC 9112).
pub fn signed_files_read_back()
    ensures { SignedFilesReadBack }
{}
