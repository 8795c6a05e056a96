//! The texts of all statements.

// ---- the tables of version 1, in their order

pub const CREATE_ACCOUNTS: &str =
    "CREATE TABLE accounts (number INTEGER PRIMARY KEY, name TEXT NOT NULL, UNIQUE (name))";

pub const CREATE_MEMBERS: &str =
    "CREATE TABLE members (grp TEXT NOT NULL, account INTEGER NOT NULL, PRIMARY KEY (grp, account))";

pub const CREATE_PROJECTS: &str =
    "CREATE TABLE projects (name TEXT NOT NULL, file TEXT NOT NULL, PRIMARY KEY (name))";

pub const CREATE_BASES: &str =
    "CREATE TABLE bases (project TEXT NOT NULL, branch TEXT NOT NULL, place INTEGER NOT NULL, commit_name TEXT NOT NULL, PRIMARY KEY (project, branch, place), UNIQUE (project, branch, commit_name, place))";

pub const CREATE_CHANGES: &str =
    "CREATE TABLE changes (number INTEGER PRIMARY KEY, project TEXT NOT NULL, branch TEXT NOT NULL, subject TEXT NOT NULL, owner INTEGER NOT NULL, status TEXT NOT NULL, wip INTEGER NOT NULL, place INTEGER NOT NULL, updated INTEGER NOT NULL, UNIQUE (project, branch, place, number))";

pub const CREATE_PATCHES: &str =
    "CREATE TABLE patches (change INTEGER NOT NULL, patch INTEGER NOT NULL, commit_name TEXT NOT NULL, parent TEXT NOT NULL, kind TEXT NOT NULL, uploader INTEGER NOT NULL, paths TEXT NOT NULL, PRIMARY KEY (change, patch), UNIQUE (commit_name, change, patch))";

pub const CREATE_VOTES: &str =
    "CREATE TABLE votes (change INTEGER NOT NULL, patch INTEGER NOT NULL, label TEXT NOT NULL, account INTEGER NOT NULL, value INTEGER NOT NULL, PRIMARY KEY (change, patch, label, account))";

pub const CREATE_REVIEWERS: &str =
    "CREATE TABLE reviewers (change INTEGER NOT NULL, account INTEGER NOT NULL, role TEXT NOT NULL, PRIMARY KEY (change, account))";

pub const CREATE_COMMENTS: &str =
    "CREATE TABLE comments (change INTEGER NOT NULL, number INTEGER NOT NULL, patch INTEGER NOT NULL, path TEXT NOT NULL, line INTEGER NOT NULL, author INTEGER NOT NULL, message TEXT NOT NULL, unresolved INTEGER NOT NULL, answers_to INTEGER NOT NULL, request INTEGER NOT NULL, PRIMARY KEY (change, number))";

pub const CREATE_ATTENTION: &str =
    "CREATE TABLE attention (change INTEGER NOT NULL, account INTEGER NOT NULL, reason TEXT NOT NULL, request INTEGER NOT NULL, PRIMARY KEY (change, account))";

pub const CREATE_ANSWERS: &str =
    "CREATE TABLE answers (caller INTEGER NOT NULL, id TEXT NOT NULL, request INTEGER NOT NULL, content TEXT NOT NULL, reply TEXT NOT NULL, PRIMARY KEY (caller, id), UNIQUE (request))";

pub const CREATE_DESK: &str =
    "CREATE TABLE desk (version INTEGER NOT NULL, requests INTEGER NOT NULL)";

/// Texts that make the tables of version 1.
pub const CREATE: [&str; 12] = [
    CREATE_ACCOUNTS,
    CREATE_MEMBERS,
    CREATE_PROJECTS,
    CREATE_BASES,
    CREATE_CHANGES,
    CREATE_PATCHES,
    CREATE_VOTES,
    CREATE_REVIEWERS,
    CREATE_COMMENTS,
    CREATE_ATTENTION,
    CREATE_ANSWERS,
    CREATE_DESK,
];

// ---- from version 1 to version 2, where each project has a parent or none

pub const CREATE_PROJECTS_2: &str =
    "CREATE TABLE projects_2 (name TEXT NOT NULL, file TEXT NOT NULL, parent TEXT NOT NULL, PRIMARY KEY (name))";

pub const MOVE_PROJECTS: &str =
    "INSERT INTO projects_2 (name, file, parent) SELECT name, file, '' FROM projects";

pub const DROP_PROJECTS: &str = "DROP TABLE projects";

// ---- from version 2 to version 3, where the identity of a stored request has an epoch

pub const CREATE_ANSWERS_3: &str =
    "CREATE TABLE answers_3 (caller INTEGER NOT NULL, epoch INTEGER NOT NULL, id TEXT NOT NULL, request INTEGER NOT NULL, content TEXT NOT NULL, reply TEXT NOT NULL, PRIMARY KEY (caller, epoch, id), UNIQUE (request))";

pub const MOVE_ANSWERS: &str =
    "INSERT INTO answers_3 (caller, epoch, id, request, content, reply) SELECT caller, 0, id, request, content, reply FROM answers";

pub const DROP_ANSWERS: &str = "DROP TABLE answers";

pub const CREATE_EPOCHS: &str = "CREATE TABLE epochs (least INTEGER NOT NULL)";

// ---- rowids

/// Texts that read the rowids of the tables.
pub const ROW_IDS: [&str; 13] = [
    "SELECT rowid FROM accounts",
    "SELECT rowid FROM members",
    "SELECT rowid FROM bases",
    "SELECT rowid FROM changes",
    "SELECT rowid FROM patches",
    "SELECT rowid FROM votes",
    "SELECT rowid FROM reviewers",
    "SELECT rowid FROM comments",
    "SELECT rowid FROM attention",
    "SELECT rowid FROM desk",
    "SELECT rowid FROM projects_2",
    "SELECT rowid FROM answers_3",
    "SELECT rowid FROM epochs",
];

// ---- rows

pub const INSERT_ACCOUNT: &str = "INSERT INTO accounts (number, name) VALUES (?1, ?2)";

pub const DELETE_ACCOUNT: &str =
    "DELETE FROM accounts WHERE number = ?1 AND typeof(number) = 'integer'";

pub const FIND_ACCOUNT: &str =
    "SELECT name FROM accounts WHERE number = ?1 AND typeof(number) = 'integer'";

pub const INSERT_MEMBER: &str = "INSERT INTO members (grp, account) VALUES (?1, ?2)";

pub const DELETE_MEMBER: &str =
    "DELETE FROM members WHERE grp = ?1 AND account = ?2 AND typeof(account) = 'integer'";

pub const FIND_MEMBER: &str =
    "SELECT account FROM members WHERE grp = ?1 AND account = ?2 AND typeof(account) = 'integer'";

pub const INSERT_PROJECT: &str = "INSERT INTO projects_2 (name, file, parent) VALUES (?1, ?2, ?3)";

pub const DELETE_PROJECT: &str = "DELETE FROM projects_2 WHERE name = ?1";

pub const FIND_PROJECT: &str = "SELECT file, parent FROM projects_2 WHERE name = ?1";

/// The project as version 1 has it.
pub const FIND_PROJECT_1: &str = "SELECT file FROM projects WHERE name = ?1";

pub const INSERT_BASE: &str =
    "INSERT INTO bases (project, branch, place, commit_name) VALUES (?1, ?2, ?3, ?4)";

pub const DELETE_BASE: &str =
    "DELETE FROM bases WHERE project = ?1 AND branch = ?2 AND place = ?3 AND typeof(place) = 'integer'";

pub const FIND_BASE: &str =
    "SELECT commit_name FROM bases WHERE project = ?1 AND branch = ?2 AND place = ?3 AND typeof(place) = 'integer'";

pub const INSERT_CHANGE: &str =
    "INSERT INTO changes (number, project, branch, subject, owner, status, wip, place, updated) VALUES (?1, ?2, ?3, ?4, ?5, ?6, ?7, ?8, ?9)";

/// All that a change says of itself beside its number.
pub const UPDATE_CHANGE: &str =
    "UPDATE changes SET project = ?2, branch = ?3, subject = ?4, owner = ?5, status = ?6, wip = ?7, place = ?8, updated = ?9 WHERE number = ?1 AND typeof(number) = 'integer'";

pub const DELETE_CHANGE: &str =
    "DELETE FROM changes WHERE number = ?1 AND typeof(number) = 'integer'";

pub const FIND_CHANGE: &str =
    "SELECT project, branch, subject, owner, status, wip, place, updated FROM changes WHERE number = ?1 AND typeof(number) = 'integer'";

pub const INSERT_PATCH: &str =
    "INSERT INTO patches (change, patch, commit_name, parent, kind, uploader, paths) VALUES (?1, ?2, ?3, ?4, ?5, ?6, ?7)";

pub const DELETE_PATCH: &str =
    "DELETE FROM patches WHERE change = ?1 AND typeof(change) = 'integer' AND patch = ?2 AND typeof(patch) = 'integer'";

pub const FIND_PATCH: &str =
    "SELECT commit_name, parent, kind, uploader, paths FROM patches WHERE change = ?1 AND typeof(change) = 'integer' AND patch = ?2 AND typeof(patch) = 'integer'";

pub const INSERT_VOTE: &str =
    "INSERT INTO votes (change, patch, label, account, value) VALUES (?1, ?2, ?3, ?4, ?5)";

pub const DELETE_VOTE: &str =
    "DELETE FROM votes WHERE change = ?1 AND typeof(change) = 'integer' AND patch = ?2 AND typeof(patch) = 'integer' AND label = ?3 AND account = ?4 AND typeof(account) = 'integer'";

pub const FIND_VOTE: &str =
    "SELECT value FROM votes WHERE change = ?1 AND typeof(change) = 'integer' AND patch = ?2 AND typeof(patch) = 'integer' AND label = ?3 AND account = ?4 AND typeof(account) = 'integer'";

pub const INSERT_REVIEWER: &str =
    "INSERT INTO reviewers (change, account, role) VALUES (?1, ?2, ?3)";

pub const DELETE_REVIEWER: &str =
    "DELETE FROM reviewers WHERE change = ?1 AND typeof(change) = 'integer' AND account = ?2 AND typeof(account) = 'integer'";

pub const FIND_REVIEWER: &str =
    "SELECT role FROM reviewers WHERE change = ?1 AND typeof(change) = 'integer' AND account = ?2 AND typeof(account) = 'integer'";

pub const INSERT_COMMENT: &str =
    "INSERT INTO comments (change, number, patch, path, line, author, message, unresolved, answers_to, request) VALUES (?1, ?2, ?3, ?4, ?5, ?6, ?7, ?8, ?9, ?10)";

pub const DELETE_COMMENT: &str =
    "DELETE FROM comments WHERE change = ?1 AND typeof(change) = 'integer' AND number = ?2 AND typeof(number) = 'integer'";

pub const FIND_COMMENT: &str =
    "SELECT patch, path, line, author, message, unresolved, answers_to, request FROM comments WHERE change = ?1 AND typeof(change) = 'integer' AND number = ?2 AND typeof(number) = 'integer'";

pub const INSERT_ATTENTION: &str =
    "INSERT INTO attention (change, account, reason, request) VALUES (?1, ?2, ?3, ?4)";

pub const DELETE_ATTENTION: &str =
    "DELETE FROM attention WHERE change = ?1 AND typeof(change) = 'integer' AND account = ?2 AND typeof(account) = 'integer'";

pub const FIND_ATTENTION: &str =
    "SELECT reason, request FROM attention WHERE change = ?1 AND typeof(change) = 'integer' AND account = ?2 AND typeof(account) = 'integer'";

pub const INSERT_ANSWER: &str =
    "INSERT INTO answers_3 (caller, epoch, id, request, content, reply) VALUES (?1, ?2, ?3, ?4, ?5, ?6)";

pub const DELETE_ANSWER: &str =
    "DELETE FROM answers_3 WHERE caller = ?1 AND typeof(caller) = 'integer' AND epoch = ?2 AND typeof(epoch) = 'integer' AND id = ?3";

/// The stored requests of the epochs lower than the one that is bound, without the rows that are of no identity, as one with a negative caller. `NOT caller < 0` is
/// to give no bound by which the index is searched, as `caller >= 0` does.
pub const DELETE_ANSWERS_BELOW: &str =
    "DELETE FROM answers_3 WHERE epoch < ?1 AND NOT epoch < 0 AND typeof(epoch) = 'integer' AND NOT caller < 0 AND typeof(caller) = 'integer' AND typeof(id) = 'text'";

pub const FIND_ANSWER: &str =
    "SELECT request, content, reply FROM answers_3 WHERE caller = ?1 AND typeof(caller) = 'integer' AND epoch = ?2 AND typeof(epoch) = 'integer' AND id = ?3";

/// The stored request as versions 1 and 2 have it.
pub const FIND_ANSWER_1: &str =
    "SELECT request, content, reply FROM answers WHERE caller = ?1 AND typeof(caller) = 'integer' AND id = ?2";

pub const INSERT_DESK: &str = "INSERT INTO desk (version, requests) VALUES (?1, ?2)";

pub const UPDATE_DESK: &str = "UPDATE desk SET version = ?1, requests = ?2";

pub const DELETE_DESK: &str = "DELETE FROM desk";

pub const FIND_DESK: &str = "SELECT version, requests FROM desk";

pub const INSERT_EPOCHS: &str = "INSERT INTO epochs (least) VALUES (?1)";

pub const UPDATE_EPOCHS: &str = "UPDATE epochs SET least = ?1";

pub const DELETE_EPOCHS: &str = "DELETE FROM epochs";

pub const FIND_EPOCHS: &str = "SELECT least FROM epochs";

// ---- other look-ups

pub const FIND_ACCOUNT_NAMED: &str = "SELECT number FROM accounts WHERE name = ?1";

pub const FIND_GROUP: &str = "SELECT account FROM members WHERE grp = ?1";

pub const FIND_PROJECT_NAME: &str = "SELECT name FROM projects_2 WHERE name = ?1";

pub const FIND_BASE_COMMIT: &str =
    "SELECT place FROM bases WHERE project = ?1 AND branch = ?2 AND commit_name = ?3";

pub const FIND_BRANCH: &str =
    "SELECT place, commit_name FROM bases WHERE project = ?1 AND branch = ?2";

// ---- all rows of a change, and changes by a commit or a place

pub const FIND_PATCHES: &str =
    "SELECT patch, commit_name, parent, kind, uploader, paths FROM patches WHERE change = ?1 AND typeof(change) = 'integer'";

pub const FIND_VOTES: &str =
    "SELECT patch, label, account, value FROM votes WHERE change = ?1 AND typeof(change) = 'integer'";

pub const FIND_REVIEWERS: &str =
    "SELECT account, role FROM reviewers WHERE change = ?1 AND typeof(change) = 'integer'";

pub const FIND_COMMENTS: &str =
    "SELECT number, patch, path, line, author, message, unresolved, answers_to, request FROM comments WHERE change = ?1 AND typeof(change) = 'integer'";

pub const FIND_CALLS: &str =
    "SELECT account, reason, request FROM attention WHERE change = ?1 AND typeof(change) = 'integer'";

pub const FIND_CHANGE_BRANCH: &str =
    "SELECT project, branch FROM changes WHERE number = ?1 AND typeof(number) = 'integer'";

pub const FIND_SENT: &str = "SELECT change, patch FROM patches WHERE commit_name = ?1";

pub const FIND_CHANGE_AT: &str =
    "SELECT number FROM changes WHERE project = ?1 AND branch = ?2 AND place = ?3 AND typeof(place) = 'integer'";

// ---- greatest numbers

pub const FIND_LAST_ACCOUNT: &str = "SELECT number FROM accounts ORDER BY number DESC LIMIT 1";

pub const FIND_LAST_PLACE: &str =
    "SELECT place FROM bases WHERE project = ?1 AND branch = ?2 ORDER BY place DESC LIMIT 1";

pub const FIND_LAST_CHANGE: &str = "SELECT number FROM changes ORDER BY number DESC LIMIT 1";

pub const FIND_LAST_JOINED: &str =
    "SELECT number, place FROM changes WHERE project = ?1 AND branch = ?2 ORDER BY place DESC LIMIT 1";

pub const FIND_LAST_PATCH: &str =
    "SELECT patch FROM patches WHERE change = ?1 AND typeof(change) = 'integer' ORDER BY patch DESC LIMIT 1";

// ---- how many there are

pub const COUNT_PROJECTS: &str = "SELECT count(*) FROM projects_2";

pub const COUNT_BASES: &str = "SELECT count(*) FROM bases WHERE project = ?1";

// ---- whether a table is there

/// Texts that read no column of a table of one of the names that tables of a desk have, of whatever version.
pub const ANY_ROW: [&str; 15] = [
    "SELECT 1 FROM accounts LIMIT 1",
    "SELECT 1 FROM members LIMIT 1",
    "SELECT 1 FROM projects LIMIT 1",
    "SELECT 1 FROM bases LIMIT 1",
    "SELECT 1 FROM changes LIMIT 1",
    "SELECT 1 FROM patches LIMIT 1",
    "SELECT 1 FROM votes LIMIT 1",
    "SELECT 1 FROM reviewers LIMIT 1",
    "SELECT 1 FROM comments LIMIT 1",
    "SELECT 1 FROM attention LIMIT 1",
    "SELECT 1 FROM answers LIMIT 1",
    "SELECT 1 FROM desk LIMIT 1",
    "SELECT 1 FROM projects_2 LIMIT 1",
    "SELECT 1 FROM answers_3 LIMIT 1",
    "SELECT 1 FROM epochs LIMIT 1",
];

/// Texts that read each column of a table, of the tables of version 3 beside the table `desk`.
pub const READ_ROWS: [&str; 12] = [
    FIND_ACCOUNT,
    FIND_MEMBER,
    FIND_PROJECT,
    FIND_BASE,
    FIND_CHANGE,
    FIND_PATCH,
    FIND_VOTE,
    FIND_REVIEWER,
    FIND_COMMENT,
    FIND_ATTENTION,
    FIND_ANSWER,
    FIND_EPOCHS,
];

/// The statements that look at a row of each table of version 2.
pub const READ_ROWS_2: [&str; 11] = [
    FIND_ACCOUNT,
    FIND_MEMBER,
    FIND_PROJECT,
    FIND_BASE,
    FIND_CHANGE,
    FIND_PATCH,
    FIND_VOTE,
    FIND_REVIEWER,
    FIND_COMMENT,
    FIND_ATTENTION,
    FIND_ANSWER_1,
];

/// The statements that look at a row of each table of version 1.
pub const READ_ROWS_1: [&str; 11] = [
    FIND_ACCOUNT,
    FIND_MEMBER,
    FIND_PROJECT_1,
    FIND_BASE,
    FIND_CHANGE,
    FIND_PATCH,
    FIND_VOTE,
    FIND_REVIEWER,
    FIND_COMMENT,
    FIND_ATTENTION,
    FIND_ANSWER_1,
];
