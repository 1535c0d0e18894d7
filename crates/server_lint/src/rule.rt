//! The rules that a server has to keep, and their names.
ghost use Rattle.std.specs.Prelude.{◌≡◌};
ghost use Rattle.server_lint.specs.Names.{rule_name, section_of, standard_of, summary_of};

/// A rule that a server breaks.
#[derive(Clone, Copy)]
pub enum Rule {
    /// Its bytes are a CoAP message.
    NotAMessage,
    /// It does not use a message ID again for other bytes before its lifetime has elapsed.
    MessageIdReused,
    /// It does not send a confirmable message again before the least timeout has elapsed.
    RepeatedTooSoon,
    /// It does not send a confirmable message again more than four times.
    RepeatedTooOften,
    /// Its acknowledgements and resets answer something.
    AnswersNothing,
    /// It acknowledges or resets what is confirmable.
    NotificationNotAcknowledged,
    /// Its requests have no critical option that devices do not recognize.
    UnknownCriticalOption,
    /// Its paths have no empty segment.
    EmptyPathSegment,
    /// Its acknowledgements and resets are Empty.
    ReplyNotEmpty,
    /// It acknowledges or resets what is confirmable before the last time that it is sent.
    AcknowledgedLate,
    /// It does not send a confirmable message again that the device has acknowledged or reset.
    RepeatedAfterReply,
    /// Its options have numbers in the fewest bytes.
    NumberNotShortest,
    /// Its requests have no token of an observation of another path.
    TokenInUse,
    /// It does not register an observation anew while what it was sent last is fresh.
    RegisteredWhileFresh,
    /// The device takes the observations that it registers.
    ObservationNotTaken,
    /// The device does not refuse its requests.
    RequestRefused,
    /// The device sends something to its requests.
    RequestUnanswered,
    /// It ends the observations that it has registered.
    ObservationLeft,
}

/// The rules, in the order in which findings at one datagram stand.
pub const RULES: [Rule; 18] = [
    Rule::NotAMessage,
    Rule::MessageIdReused,
    Rule::RepeatedTooSoon,
    Rule::RepeatedTooOften,
    Rule::AnswersNothing,
    Rule::NotificationNotAcknowledged,
    Rule::UnknownCriticalOption,
    Rule::EmptyPathSegment,
    Rule::ReplyNotEmpty,
    Rule::AcknowledgedLate,
    Rule::RepeatedAfterReply,
    Rule::NumberNotShortest,
    Rule::TokenInUse,
    Rule::RegisteredWhileFresh,
    Rule::ObservationNotTaken,
    Rule::RequestRefused,
    Rule::RequestUnanswered,
    Rule::ObservationLeft,
];

impl Rule {
    /// Its name.
    pub fn name(self) -> &'static str
        ensures { result.now ≡ rule_name self }
    {
        match self {
            Rule::NotAMessage => "not-a-message",
            Rule::MessageIdReused => "message-id-reused",
            Rule::RepeatedTooSoon => "repeated-too-soon",
            Rule::RepeatedTooOften => "repeated-too-often",
            Rule::AnswersNothing => "answers-nothing",
            Rule::NotificationNotAcknowledged => "notification-not-acknowledged",
            Rule::UnknownCriticalOption => "unknown-critical-option",
            Rule::EmptyPathSegment => "empty-path-segment",
            Rule::ReplyNotEmpty => "reply-not-empty",
            Rule::AcknowledgedLate => "acknowledged-late",
            Rule::RepeatedAfterReply => "repeated-after-reply",
            Rule::NumberNotShortest => "number-not-shortest",
            Rule::TokenInUse => "token-in-use",
            Rule::RegisteredWhileFresh => "registered-while-fresh",
            Rule::ObservationNotTaken => "observation-not-taken",
            Rule::RequestRefused => "request-refused",
            Rule::RequestUnanswered => "request-unanswered",
            Rule::ObservationLeft => "observation-left",
        }
    }

    /// The standard that has it.
    pub fn standard(self) -> &'static str
        ensures { result.now ≡ standard_of self }
    {
        match self {
            Rule::RegisteredWhileFresh | Rule::ObservationNotTaken | Rule::ObservationLeft => {
                "RFC 7641"
            }
            _ => "RFC 7252",
        }
    }

    /// The section of that standard.
    pub fn section(self) -> &'static str
        ensures { result.now ≡ section_of self }
    {
        match self {
            Rule::NotAMessage => "3",
            Rule::MessageIdReused => "4.4",
            Rule::RepeatedTooSoon => "4.2",
            Rule::RepeatedTooOften => "4.2",
            Rule::AnswersNothing => "4.2",
            Rule::NotificationNotAcknowledged => "4.2",
            Rule::UnknownCriticalOption => "5.4.1",
            Rule::EmptyPathSegment => "5.10.1",
            Rule::ReplyNotEmpty => "4.2",
            Rule::AcknowledgedLate => "4.2",
            Rule::RepeatedAfterReply => "4.2",
            Rule::NumberNotShortest => "3.2",
            Rule::TokenInUse => "5.3.1",
            Rule::RegisteredWhileFresh => "3.3.1",
            Rule::ObservationNotTaken => "4.1",
            Rule::RequestRefused => "5.9.2",
            Rule::RequestUnanswered => "5.2",
            Rule::ObservationLeft => "3.6",
        }
    }

    /// What a server does that breaks it.
    pub fn summary(self) -> &'static str
        ensures { result.now ≡ summary_of self }
    {
        match self {
            Rule::NotAMessage => "sends bytes that are not a message",
            Rule::MessageIdReused => {
                "uses a message ID again for other bytes before its lifetime has elapsed"
            }
            Rule::RepeatedTooSoon => {
                "sends a confirmable message again less than 2 s after the one before"
            }
            Rule::RepeatedTooOften => {
                "sends a confirmable message again more than 4 times within 247 s"
            }
            Rule::AnswersNothing => "acknowledges or resets nothing that the device sent",
            Rule::NotificationNotAcknowledged => {
                "neither acknowledges nor resets a confirmable message within 93 s"
            }
            Rule::UnknownCriticalOption => {
                "sends a request with a critical option that devices do not recognize"
            }
            Rule::EmptyPathSegment => "sends a request whose path has an empty segment",
            Rule::ReplyNotEmpty => "acknowledges or resets with a message that is not Empty",
            Rule::AcknowledgedLate => {
                "acknowledges or resets a confirmable message only after it was sent 5 times"
            }
            Rule::RepeatedAfterReply => {
                "sends a confirmable message again that the device had acknowledged or reset"
            }
            Rule::NumberNotShortest => "writes a number in an option with a leading zero byte",
            Rule::TokenInUse => {
                "sends a request with the token of an observation of another path"
            }
            Rule::RegisteredWhileFresh => {
                "registers an observation anew less than 65 s after its latest message"
            }
            Rule::ObservationNotTaken => "registers an observation that the device does not take",
            Rule::RequestRefused => "sends a request that the device refuses",
            Rule::RequestUnanswered => "sends a request to which the device sends nothing",
            Rule::ObservationLeft => {
                "registers an observation and leaves it to live on at the end"
            }
        }
    }
}
