//! Laws, each the contract of a function.
ghost use Rattle.http_laws.specs.Ends.{EndsAgree};
ghost use Rattle.http_laws.specs.Messages.{OneMessage, OnlyFaultsBeforeMessage, MessagesAreAnswered};
ghost use Rattle.http_laws.specs.Origins.{OriginsAreRefused, OnlyOriginsAreRefused};
ghost use Rattle.http_laws.specs.Targets.{TargetsAreTruncated};

use http_serving::Service;

/// Bytes begin with one message at most: its head, its body and what follows it are determined.
pub fn one_message()
    ensures { OneMessage }
{}

/// Bytes that begin with a message allow no end before it but a fault of the link and running out of memory.
pub fn only_faults_before_a_message()
    ensures { OnlyFaultsBeforeMessage }
{}

/// At the position where a connection ends no message is left, unless the last request asked that it end, as many requests as
/// the limit were answered, the link failed, or memory ran out.
pub fn every_message_is_answered<S: Service>(_service: &S)
    ensures { MessagesAreAnswered S }
{}

/// Two ends that the same bytes allow are the same, or one is a fault of the link or running out of memory, or no head can come of
/// the bytes and more fields than the limit have come.
pub fn ends_agree()
    ensures { EndsAgree }
{}

/// Bytes that begin with a head with a field `Origin`, whatever its value, begin with no message, so that no request of theirs is
/// answered; and they allow no end but `OriginRefused`, `BadFraming`, a fault of the link and running out of memory.
pub fn origins_are_refused()
    ensures { OriginsAreRefused }
{}

/// Bytes that begin with a head and allow the end `OriginRefused` have a field `Origin` in that head.
pub fn only_origins_are_refused()
    ensures { OnlyOriginsAreRefused }
{}

/// Input that ends inside the target of a request, whatever bytes the target has, ends the connection as `Truncated`, but for a
/// fault of the link and running out of memory, as long as it has fewer bytes than the limit of a head.
pub fn targets_are_truncated()
    ensures { TargetsAreTruncated }
{}
