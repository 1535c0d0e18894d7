use crate::digits::Digits;
use crate::numbers::DeviceNumbers;
use device_machine::Act;
use lwm2m_values::Text;
use scenario_words::Cause;

/// What a line of a case of a scenario states, after its `=>` or `=/>`.
#[derive(Drop)]
pub enum Stated {
    /// What the device outputs there.
    Output(OutputStated),
    /// How the serial run of the scenario ends, or that its text is refused.
    End(EndStated),
    /// The verdict on the recorded trace above.
    Verdict(VerdictStated),
    /// What is written of the scenario and its serial run.
    Written(WrittenStated),
}

/// What is stated of the outputs of a step.
#[derive(Drop)]
pub enum OutputStated {
    /// `nothing`: there is no output.
    Nothing,
    /// `send S HEX`: a server is sent a datagram.
    Send {
        /// The server, by its Short Server ID from 1 to 65534.
        server: u16,
        /// The digits of the datagram.
        digits: Digits,
    },
    /// `code C.DD`, `code C.DD "TEXT"`: a server, whichever, is sent a datagram of this code.
    Code {
        /// The code in one byte (RFC 7252 section 3): its class by 32, and its detail.
        code: u8,
        /// The payload, where one is stated.
        text: Option<Text>,
    },
    /// `notification N "TEXT"`: a server, whichever, is sent a notification.
    Notification {
        /// The value of its Observe option (RFC 7641 section 2), below 2^24.
        number: u32,
        /// The payload.
        text: Text,
    },
    /// `act NAME`: the device does this.
    Act(Act),
    /// `N more`: this many outputs more, from 1 to 100,000, of which nothing is said.
    More(u32),
}

/// What is stated of the end of the serial run, or of the text of the scenario.
#[derive(Drop)]
pub enum EndStated {
    /// `done E`: the serial run ends with this many entries, and each device has made all its steps.
    Done(u64),
    /// `stalled E waiting D ..`: the serial run ends with this many entries, and these devices wait.
    Stalled {
        /// The entries.
        steps: u64,
        /// The devices, one or more.
        waiting: DeviceNumbers,
    },
    /// `fault line N CAUSE`: the text is refused.
    Fault {
        /// The line, counted in the case from 1 below the title.
        line: u64,
        /// Why.
        cause: Cause,
    },
}

/// What is stated of a recorded trace.
#[derive(Drop)]
pub enum VerdictStated {
    /// `run`: the entries of the recorded trace above are a run of the scenario.
    Run,
    /// `not a run at N`: entry N is the first that does not follow, counted from 0.
    NotARun(u64),
    /// `fault WORDS` but `fault line ..`: the recorded trace above is refused so, in the words of `lwbench`, which one
    /// space parts.
    Fault(Text),
}

/// What is stated of what is written.
#[derive(Drop)]
pub enum WrittenStated {
    /// `image HEX`: the image of the scenario.
    Image(Digits),
    /// `trace HEX`: the trace file of the serial run.
    Trace(Digits),
    /// `text`: the canonical text of the scenario is the lines stated below.
    Text,
    /// `=| LINE`: a line of the canonical text.
    TextLine(Text),
}
