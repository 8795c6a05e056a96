//! The delivery that a line spells.
ghost use Rattle.{serde_json.specs.View.view, review_names.specs.Bad.Gives};
ghost use Rattle.review_json.specs.Line.{command_in_line, write_in, delivery_in, delivery_spelled};

use crate::routes::route_named;
use review_json_routes::{
    Route, account_at, command_in, epoch_or_first, is_question, name_at, query_of, text_at,
    value_of,
};
use review_names::Bad;
use review_words::{AccountNo, Command, Delivery};
use serde_json::{Map, Value};
use std::alloc::Global;

#[tactic(auto, unfolding(crate::specs::Line::command_in_line, crate::specs::Line::body_in))]
fn command_in_line(alloc: Global, route: &Route, line: &Value) -> Result<Command, Bad>
    ensures { Gives result (command_in_line route.now (view line.now)) }
{
    match line.get("body") {
        Some(body) => {
            if !body.is_object() {
                return Err(Bad::Form);
            }
            command_in(alloc, route, body)
        }
        None => {
            let empty = Value::Object(Map::new(alloc));
            command_in(alloc, route, &empty)
        }
    }
}

#[tactic(auto, unfolding(crate::specs::Line::write_in))]
fn write_in(alloc: Global, caller: AccountNo, route: &Route, line: &Value) -> Result<Delivery, Bad>
    ensures { Gives result (write_in caller route.now (view line.now)) }
{
    let id = name_at(alloc, "id", line)?;
    let epoch = epoch_or_first("epoch", line)?;
    let command = command_in_line(alloc, route, line)?;
    Ok(Delivery::Write {
        caller,
        epoch,
        id,
        command,
    })
}

#[tactic(auto, unfolding(crate::specs::Line::delivery_in, crate::specs::Line::read_in))]
fn delivery_in(alloc: Global, line: &Value) -> Result<Delivery, Bad>
    ensures { Gives result (delivery_in (view line.now)) }
{
    let caller = account_at("caller", line)?;
    let name = text_at("do", line).ok_or(Bad::Form)?;
    let route = route_named(alloc, name, line)?;
    if is_question(&route) {
        let query = query_of(&route)?;
        return Ok(Delivery::Read { caller, query });
    }
    write_in(alloc, caller, &route, line)
}

/// The delivery that the bytes of a line spell.
///
/// A line is an object with `caller`, a number; `do`, the name of a command or a query; and the segments of its route, as
/// `group`, or `project` and `branch`, or `change`, and with it `patch_set` or `account`, of which a change and an account are
/// numbers, and a patch set a number or the text `current`. A command's line has `id`, a name, too, and `epoch`, a number, which
/// is 0 where it is absent, and `body`, an object with the command's other parts, which is `{}` where it is absent.
/// Members may come in any order; other members are ignored, as `id`, `epoch` and `body` of a query; of a key that is given
/// twice the last value stays.
/// A whole number is one that is written so: `2.0` and `1e0` are none. `null` isn't absent.
///
/// Form exactly where the line spells no delivery, which is also where any value in it can't be read.
#[tactic(auto, unfolding(crate::specs::Line::delivery_spelled))]
pub fn delivery_of_line(alloc: Global, bytes: &[u8]) -> Result<Delivery, Bad>
    ensures { Gives result (delivery_spelled bytes.now) }
{
    let line = value_of(alloc, bytes)?;
    delivery_in(alloc, &line)
}
