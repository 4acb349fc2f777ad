//! The names of commands that have options.
ghost use Rattle.std.specs.Prelude.{◌≡◌, map};
ghost use Rattle.cli_words.specs.Commands.{command_text, command_in, options_of};

/// The name of a command that has options.
#[derive(Clone, Copy, Debug, PartialEq, Eq)]
pub enum CommandName {
    /// Does a script over tables.
    Replay,
    /// Does a script over tables, with job schedules.
    Calendar,
    /// Evaluates a formula.
    Formula,
    /// Writes the tables of a store.
    Export,
    /// Serves HTTP.
    Serve,
}

impl CommandName {
    /// The name's text. It does not allocate.
    #[tactic(auto, unfolding(crate::specs::Commands::command_text))]
    pub fn text(self) -> &'static str
        ensures { result.now ≡ command_text self }
    {
        match self {
            CommandName::Replay => "replay",
            CommandName::Calendar => "calendar",
            CommandName::Formula => "formula",
            CommandName::Export => "export",
            CommandName::Serve => "serve",
        }
    }

    /// The command with this name, if there is one. It does not allocate.
    #[tactic(auto, unfolding(crate::specs::Commands::command_in))]
    pub fn read(text: &[u8]) -> Option<CommandName>
        ensures { result ≡ command_in text.now }
    {
        [
            CommandName::Replay,
            CommandName::Calendar,
            CommandName::Formula,
            CommandName::Export,
            CommandName::Serve,
        ]
        .iter()
        .copied()
        .find(|name| text == name.text().as_bytes())
    }

    /// The names of its options, without the hyphens. It does not allocate.
    #[tactic(auto, unfolding(crate::specs::Commands::options_of))]
    pub fn options(self) -> &'static [&'static str]
        ensures { map (λ o. o.now) result.now ≡ options_of self }
    {
        match self {
            CommandName::Replay => &["seats", "journal", "store"],
            CommandName::Calendar => &["seats", "journal", "store"],
            CommandName::Formula => &["now", "dedicated"],
            CommandName::Export => &["store"],
            CommandName::Serve => &["seats", "journal", "store", "port", "doors", "connections"],
        }
    }
}
