//! The project by whose file a command or a question is judged.
ghost use Rattle.std.specs.Prelude.{◌≡◌, option_copied};
ghost use Rattle.review_machine_rows.specs.Known.{known, change_in};
ghost use Rattle.review_machine_rows.specs.Steps.{asks_file, project_for, project_of, topic_of};
ghost use Rattle.review_machine_rows.specs.declared.rows.Want.TheVariants as want;

use review_machine_accounts::needs_file;
use review_machine_rows::{Matter, Rows};
use review_words::{ChangeNo, ChangeQuery, Command, ProjectName, Query};

/// The project by whose file a command or a question is judged, where one is needed.
pub fn project_of<'r>(rows: &'r Rows, matter: Matter<'r>) -> Option<&'r ProjectName>
    ensures { option_copied result ≡ project_of rows.now (topic_of matter.entry) }
{
    match matter {
        Matter::Command(Command::PutProject { project, file: _ }) => Some(project),
        Matter::Command(Command::CreateChange(new)) => Some(&new.project),
        Matter::Command(Command::OnChange { change, command }) => {
            project_for(needs_file(command), rows, *change)
        }
        Matter::Command(Command::Submit { change }) => project_for(true, rows, *change),
        Matter::Query(Query::OnChange { change, query }) => {
            project_for(asks_file(*query), rows, *change)
        }
        _ => None,
    }
}

// Whether a question about a change is answered by the file of its project.
fn asks_file(query: ChangeQuery) -> bool
    ensures { result ≡ asks_file query }
{
    matches!(query, ChangeQuery::Requirements)
}

// The project of a change, where its file is needed.
fn project_for(is_needed: bool, rows: &Rows, change: ChangeNo) -> Option<&ProjectName>
    ensures { option_copied result ≡ project_for is_needed (change_in (known rows.now (want.Change change))) }
{
    if !is_needed {
        return None;
    }
    match rows.change(change) {
        Some(found) => Some(&found.header.project),
        None => None,
    }
}
