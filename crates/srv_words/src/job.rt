//! What the words ask for.
ghost use Rattle.std.specs.Prelude.{◌≡◌};
ghost use Rattle.srv_words.specs.Command.{name_of};
ghost use Rattle.srv_words.specs.Jobs.{command_of};

use fm_base::{Bytes, List};
use fm_model::Site;

/// The words are no command of this program.
#[derive(Clone, Copy)]
pub struct BadWords;

/// A step on a collection.
#[derive(Drop)]
pub enum Step {
    /// The file at this path comes into the collection.
    Put(Bytes),
    /// The files whose run is below this instant go, in seconds from the collection's epoch.
    Expire(i64),
    /// The file of this name is taken back.
    Retract(Bytes),
    /// This number of requests is answered.
    Ask(u32),
}

/// A collection, and the steps that are done on it in their order.
#[derive(Drop)]
pub struct Stepping {
    pub site: Site,
    /// The path of the prototype.
    pub proto: Bytes,
    pub steps: List<Step>,
}

/// The options of `serve`. Paths, folders and the address are as they stand in the words.
#[derive(Drop)]
pub struct Serving {
    pub site: Site,
    /// The path of the prototype.
    pub proto: Bytes,
    /// The address at which requests are taken.
    pub listen: Bytes,
    pub workers: u32,
    /// After how many connections a worker ends; 0 is without end.
    pub connections: u32,
    /// For how many seconds a run is kept; there is no clock where that isn't said.
    pub keep: Option<u32>,
    /// After how many ticks the clock ends; 0 is without end.
    pub ticks: u32,
    /// The folders that new files come into.
    pub inboxes: List<Bytes>,
}

/// A collection of `many`.
#[derive(Drop)]
pub struct Spec {
    /// With the default epoch and the default mark.
    pub site: Site,
    /// The path of the prototype.
    pub proto: Bytes,
    /// The folder that new files come into.
    pub inbox: Bytes,
}

/// The options of `many`. Paths, folders and the address are as they stand in the words.
#[derive(Drop)]
pub struct ServingMany {
    /// The address at which requests are taken.
    pub listen: Bytes,
    pub workers: u32,
    /// After how many connections a worker ends; 0 is without end.
    pub connections: u32,
    /// For how many seconds a run is kept; there is no clock where that isn't said.
    pub keep: Option<u32>,
    /// After how many ticks each clock ends; 0 is without end.
    pub ticks: u32,
    /// The collections, whose names differ.
    pub specs: List<Spec>,
}

/// A command of the program.
#[derive(Clone, Copy)]
pub enum Command {
    Once,
    Twod,
    Extract,
    Pull,
    Check,
    Load,
    Serve,
    Many,
}

impl Command {
    // Its word.
    pub(crate) fn name<'a>(self) -> &'a str
        ensures { result.now ≡ name_of self }
    {
        match self {
            Command::Once => "once",
            Command::Twod => "twod",
            Command::Extract => "extract",
            Command::Pull => "pull",
            Command::Check => "check",
            Command::Load => "load",
            Command::Serve => "serve",
            Command::Many => "many",
        }
    }
}

/// The job that the words ask for. Paths are as they stand in the words.
#[derive(Drop)]
pub enum Job {
    /// The steps are done, with requests from the link.
    Once(Stepping),
    /// The steps are done, and the view by run and offset is written.
    Twod {
        stepping: Stepping,
        /// The values are sent too, and not the structure alone.
        with_values: bool,
        constraint: Bytes,
    },
    /// The steps are done, and a view is written as a file in the netCDF classic format.
    Extract {
        stepping: Stepping,
        /// The path of the view below that of the collection.
        view: Bytes,
        constraint: Bytes,
        /// The version of the format, 1 or 2.
        version: u8,
    },
    /// The reply to a target is read from the server at an address.
    Pull {
        address: Bytes,
        target: Bytes,
    },
    /// The file at a path is checked.
    Check {
        path: Bytes,
    },
    /// `files` files are made from a seed, taken into a collection and read.
    Load {
        seed: u32,
        files: u32,
    },
    /// A collection is served.
    Serve(Serving),
    /// Several collections are served at one address.
    Many(ServingMany),
}

impl Job {
    /// The command that does the job.
    pub fn command(&self) -> Command
        ensures { result ≡ command_of self.now }
    {
        match self {
            Job::Once(_) => Command::Once,
            Job::Twod { .. } => Command::Twod,
            Job::Extract { .. } => Command::Extract,
            Job::Pull { .. } => Command::Pull,
            Job::Check { .. } => Command::Check,
            Job::Load { .. } => Command::Load,
            Job::Serve(_) => Command::Serve,
            Job::Many(_) => Command::Many,
        }
    }
}
