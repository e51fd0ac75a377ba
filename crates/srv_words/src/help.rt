//! What the help says of the program, its commands and each value; the forms of values; and the version.

/// The version of the program, as the first heading of CHANGELOG.md has it.
pub(crate) const VERSION: &str = "fmrcd 0.1.0\n";

pub(crate) const PROGRAM_HELP: &str =
    "Serves forecast runs that overlap: OPeNDAP (DAP 2.0) over netCDF classic files";

/// What stands below the list of commands. In these texts `{n}` ends a line.
pub(crate) const MORE_HELP: &str =
    "'fmrcd COMMAND --help' says what a command takes, 'fmrcd --version' the version.";

pub(crate) const SERVE_HELP: &str = "Serves a collection over HTTP, while files arrive in folders";

pub(crate) const MANY_HELP: &str =
    "Serves several collections at one address, each with a folder of its own";

pub(crate) const TWOD_HELP: &str =
    "Does steps in order on a collection, and writes its view by run and offset";

pub(crate) const EXTRACT_HELP: &str =
    "Does steps in order on a collection, and writes a view as a netCDF classic file";

pub(crate) const PULL_HELP: &str =
    "Reads a reply with values from a server, counts the values and sums their bits";

pub(crate) const ONCE_HELP: &str =
    "Does steps in order on a collection, with requests from standard input";

pub(crate) const CHECK_HELP: &str = "Says whether a file can be read, or its first fault";

pub(crate) const LOAD_HELP: &str =
    "Makes files from a seed, reads them through four views, and sums the bytes";

pub(crate) const NAME_HELP: &str = "The collection's name: 1 to 64 letters, digits, '_' and '-'";

pub(crate) const PROTO_HELP: &str = "The path of the file that says what the views look like";

pub(crate) const EPOCH_HELP: &str =
    "From when times are counted: YYYY-MM-DDThh:mm:ssZ, of the years{n}100 to 9900 [default: 2020-01-01T00:00:00Z]";

pub(crate) const MARK_HELP: &str =
    "What stands in a file's name before its run: at most 64 bytes{n}[default: the name and '_']";

pub(crate) const STEP_HELP: &str =
    "put:PATH, expire:INSTANT (the runs before it), retract:NAME or{n}ask:NUMBER (1 to 10000 replies)";

pub(crate) const CHANGE_HELP: &str =
    "put:PATH, expire:INSTANT (the runs before it) or retract:NAME";

pub(crate) const SERVICE_HELP: &str = "dds for the structure alone, or dods for the values too";

pub(crate) const ASK_HELP: &str =
    "What is asked for, as a request has it after '?' [default: everything]";

pub(crate) const VIEW_HELP: &str =
    "The path of a view, below that of the collection and without a{n}service, as gfs_best.ncd";

pub(crate) const FORMAT_HELP: &str = "The version of the format: 1, or 2 with offsets of 64 bits";

pub(crate) const CONNECT_HELP: &str = "The address of the server, as 127.0.0.1:8080";

pub(crate) const TARGET_HELP: &str =
    "What is asked for, as /thredds/dodsC/gfs/gfs_best.ncd.dods?time";

pub(crate) const SPEC_HELP: &str =
    "NAME=PROTO=INBOX: the name of a collection, the path of its prototype{n}and its folder; 2 to 4 of them";

pub(crate) const FILE_HELP: &str = "The path of a netCDF classic file";

pub(crate) const SEED_HELP: &str = "A number from 0 to 4294967295";

pub(crate) const FILES_HELP: &str = "How many files: a number from 1 to 400";

pub(crate) const LISTEN_HELP: &str =
    "The address at which connections are taken, as 127.0.0.1:8080";

pub(crate) const WORKERS_HELP: &str =
    "How many workers take connections: a number from 1 to 16 [default: 4]";

pub(crate) const CONNECTIONS_HELP: &str =
    "After how many connections each worker ends, up to 4294967295,{n}or 0 for never [default: 0]";

pub(crate) const KEEP_HELP: &str =
    "For how many seconds a run is kept, 1 to 1073741823 [default: for ever]";

pub(crate) const TICKS_HELP: &str =
    "After how many looks for old runs the clock ends, up to 4294967295,{n}or 0 for never [default: 0]";

pub(crate) const QUIET_HELP: &str = "Leaves out the lines on standard error";

pub(crate) const INBOX_HELP: &str = "A folder in which files arrive: 1 to 8 of them";

/// What a value must be, for a person who gave another.
pub(crate) const NAME_FORM: &str = "it must be 1 to 64 letters, digits, '_' and '-'";

pub(crate) const EPOCH_FORM: &str = "it must be YYYY-MM-DDThh:mm:ssZ, of the years 100 to 9900";

pub(crate) const MARK_FORM: &str = "it must have at most 64 bytes";

pub(crate) const STEP_FORM: &str =
    "it must be put:PATH, expire:INSTANT, retract:NAME or ask:NUMBER";

pub(crate) const CHANGE_FORM: &str = "it must be put:PATH, expire:INSTANT or retract:NAME";

pub(crate) const EXPIRE_FORM: &str =
    "it must be expire:YYYY-MM-DDThh:mm:ssZ, within 34 years of the epoch";

pub(crate) const ASK_FORM: &str =
    "it must be ask:NUMBER, a number from 1 to 10000 without leading zeros";

pub(crate) const SERVICE_FORM: &str = "it must be dds or dods";

pub(crate) const VIEW_FORM: &str = "it must not be empty, and have no '?'";

pub(crate) const VERSION_FORM: &str = "it must be 1 or 2";

pub(crate) const ADDRESS_FORM: &str =
    "it must be 1 to 255 visible characters of ASCII, without a blank";

pub(crate) const TARGET_FORM: &str =
    "it must be 1 to 8000 visible characters of ASCII, without a blank";

pub(crate) const SPEC_FORM: &str =
    "it must be NAME=PROTO=INBOX, without another '='; NAME is 1 to 64 letters, digits, '_' and '-'";

pub(crate) const NAMES_FORM: &str = "each collection must have a name of its own";

pub(crate) const SPECS_FORM: &str = "there must be 2 to 4 collections";

pub(crate) const FOLDERS_FORM: &str = "there may be at most 8 folders";

pub(crate) const FILES_FORM: &str = "it must be a number from 1 to 400, without leading zeros";

pub(crate) const WORKERS_FORM: &str = "it must be a number from 1 to 16, without leading zeros";

pub(crate) const COUNT_FORM: &str =
    "it must be a number from 0 to 4294967295, without leading zeros";

pub(crate) const KEEP_FORM: &str =
    "it must be a number from 1 to 1073741823, without leading zeros";
