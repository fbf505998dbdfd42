ghost use Rattle.std.specs.Prelude.{◌≡◌};
ghost use Rattle.lsv_request.specs.Refusals.{refusal_number, refusal_text};

/// Why a session ends with an error, by the text that the client is told.
#[derive(Clone, Copy, Debug, PartialEq, Eq)]
pub enum Refusal {
    /// The message doesn't come in this state of the session.
    UnexpectedMessage,
    /// The bytes are no message.
    MalformedMessage,
    /// A message has more bytes than a frame may state, or a record more data than a message can bring.
    MessageTooLarge,
    /// The command, its user, or who asked for it on which host is missing from an accept that opens a session.
    MissingKey,
    /// A time isn't valid, or is missing where it is needed.
    BadTime,
    /// The size of a window is negative, or the name of a signal isn't 1 to 32 visible bytes.
    BadSizeOrSignal,
    /// Another session writes the log.
    LogInUse,
    /// No log has this number, or the identifier isn't that of a log number.
    NoSuchLog,
    /// The log has its exit.
    LogComplete,
    /// The log has no record that ends at the point.
    NoSuchResumePoint,
    /// What is stored of the log isn't what was written.
    LogDamaged,
    /// A device failed.
    DeviceFault,
    /// All log numbers were given.
    NumbersSpent,
    /// A file is full, the elapsed time would reach 2^63 nanoseconds, or no further cut can be counted.
    LogFull,
    OutOfMemory,
}

impl Refusal {
    /// From 1 to 15, in the order of the variants.
    pub fn number(self) -> u8
        ensures { result ≡ refusal_number self }
    {
        match self {
            Refusal::UnexpectedMessage => 1,
            Refusal::MalformedMessage => 2,
            Refusal::MessageTooLarge => 3,
            Refusal::MissingKey => 4,
            Refusal::BadTime => 5,
            Refusal::BadSizeOrSignal => 6,
            Refusal::LogInUse => 7,
            Refusal::NoSuchLog => 8,
            Refusal::LogComplete => 9,
            Refusal::NoSuchResumePoint => 10,
            Refusal::LogDamaged => 11,
            Refusal::DeviceFault => 12,
            Refusal::NumbersSpent => 13,
            Refusal::LogFull => 14,
            Refusal::OutOfMemory => 15,
        }
    }

    /// The text of the error that the client is told.
    pub fn text(self) -> &'static str
        ensures { result.now ≡ refusal_text self }
    {
        match self {
            Refusal::UnexpectedMessage => "unexpected message",
            Refusal::MalformedMessage => "malformed message",
            Refusal::MessageTooLarge => "message too large",
            Refusal::MissingKey => "missing key",
            Refusal::BadTime => "bad time",
            Refusal::BadSizeOrSignal => "bad size or signal",
            Refusal::LogInUse => "log in use",
            Refusal::NoSuchLog => "no such log",
            Refusal::LogComplete => "log complete",
            Refusal::NoSuchResumePoint => "no such resume point",
            Refusal::LogDamaged => "log damaged",
            Refusal::DeviceFault => "device fault",
            Refusal::NumbersSpent => "numbers spent",
            Refusal::LogFull => "log full",
            Refusal::OutOfMemory => "out of memory",
        }
    }
}
