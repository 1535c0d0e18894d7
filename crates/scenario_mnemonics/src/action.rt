ghost use Rattle.std.specs.Prelude.{◌≡◌};
ghost use Rattle.scenario_mnemonics.specs.Messages.{fields_of, fits};

use crate::format::Format;
use crate::queries::Queries;
use crate::verb::Verb;
use object_defs::Path;
use octets::Bytes;

/// What a request of a mnemonic asks for (OMA LwM2M 1.1 Core).
#[derive(Drop)]
pub enum Action {
    /// Read, with a format that it accepts.
    Read(Format),
    /// Observe, with a format that it accepts.
    Observe(Format),
    /// Cancel Observation, with a format that it accepts.
    Cancel(Format),
    /// Discover.
    Discover,
    /// Delete.
    Delete,
    /// Write with Replace: a format and a payload.
    Write(Format, Bytes),
    /// Write with Partial Update, of an instance: a format and a payload.
    Update(Format, Bytes),
    /// Create, of an object: a format and a payload.
    Create(Format, Bytes),
    /// Write-Attributes.
    Attr(Queries),
    /// Execute, of a resource: the arguments.
    Exec(Bytes),
}

impl Action {
    /// What its keyword says.
    pub fn verb(&self) -> Verb
        ensures { result ≡ (fields_of self.now).verb }
    {
        match self {
            Action::Read(_) => Verb::Read,
            Action::Observe(_) => Verb::Observe,
            Action::Cancel(_) => Verb::Cancel,
            Action::Discover => Verb::Discover,
            Action::Delete => Verb::Delete,
            Action::Write(_, _) => Verb::Write,
            Action::Update(_, _) => Verb::Update,
            Action::Create(_, _) => Verb::Create,
            Action::Attr(_) => Verb::Attr,
            Action::Exec(_) => Verb::Exec,
        }
    }

    /// Whether the path has as many numbers as the action needs: one for Create, two for Partial Update, three for
    /// Execute, and any for the others.
    pub fn fits(&self, path: Path) -> bool
        ensures { result ≡ fits self.now path }
    {
        match self {
            Action::Update(_, _) => matches!(path, Path::Instance(_, _)),
            Action::Create(_, _) => matches!(path, Path::Object(_)),
            Action::Exec(_) => matches!(path, Path::Resource(_, _, _)),
            _ => true,
        }
    }
}
