// A whole script.
ghost use Rattle.std.specs.Prelude.{◌≡◌, map, Some, is_some, option_map, IfOk, IfErr};
ghost use Rattle.std.specs.List.{list_all};
ghost use Rattle.serde_json.specs.Find.{as_object};
ghost use Rattle.serde_json.specs.View.{view};
ghost use Rattle.wast_script.specs.Forms.{command_of};
ghost use Rattle.wast_script.specs.Lists.{all_given};
ghost use Rattle.wast_script.specs.Scripts.{HasCommands, IsFault, IsFaultOf, IsFirstFault, IsScript, are_objects, objects_in};
ghost use Rattle.wast_script.specs.Seen.{seen_commands, seen_script};

use crate::command::Command;
use crate::fault::ScriptFault;
use crate::forms::command;
use crate::members::array;
use serde_json::Value as Json;
use std::alloc::Global;

/// Bytes of a script.
const SCRIPT_BYTES: usize = 1_048_576;

/// Commands of a script.
const COMMANDS: usize = 10_000;

/// The commands of a script, in order.
#[derive(Drop)]
pub struct Script {
    pub commands: Vec<Command>,
}

/// The script that a text says. It is a JSON object, read by serde_json, whose member `commands` is an array of at most 10,000
/// objects. Of these each is a command by its member `type`; other members are ignored, and of members with one name the last
/// counts. The fault is the first of its list that holds, or want of memory.
pub fn read_script(alloc: Global, bytes: &[u8]) -> Result<Script, ScriptFault>
    ensures script { IfOk result (λ script. IsScript bytes.now (seen_script script)) }
    ensures fault { IfErr result (IsFault bytes.now) }
{
    if bytes.len() > SCRIPT_BYTES {
        return Err(ScriptFault::TooLong);
    }
    match Json::from_slice(alloc, bytes) {
        Ok(json) => script_of(alloc, &json),
        Err(error) if error.is_memory() => Err(ScriptFault::Memory),
        Err(_) => Err(ScriptFault::NotJson),
    }
}

// The script that a JSON value stands for.
fn script_of(alloc: Global, json: &Json) -> Result<Script, ScriptFault>
    ensures script { IfOk result (λ script. HasCommands (view json.now) (seen_script script)) }
    ensures fault { IfErr result (IsFaultOf (view json.now)) }
{
    let Some(objects) = objects(json) else {
        return Err(ScriptFault::NoCommands);
    };
    match commands(alloc, objects) {
        Ok(commands) => Ok(Script { commands }),
        Err(fault) => Err(fault),
    }
}

// The objects in its array `commands`.
fn objects(json: &Json) -> Option<&[Json]>
    ensures { option_map (λ items. map view items.now) result ≡ objects_in (view json.now) }
{
    let Some(items) = array(json, "commands") else {
        return None;
    };
    if !are_objects(items) {
        return None;
    }
    Some(items)
}

#[tactic(auto, using(crate::proofs::Items::objects_when))]
fn are_objects(items: &[Json]) -> bool
    ensures { result ≡ are_objects (map view items.now) }
{
    items.len() <= COMMANDS && all_objects(items)
}

fn all_objects(items: &[Json]) -> bool
    ensures { result ≡ list_all (λ item. is_some (as_object (view item))) items.now }
{
    items.iter().all(|item| item.is_object())
}

// The commands of objects, or the number of the first that is not of its form.
fn commands(alloc: Global, objects: &[Json]) -> Result<Vec<Command>, ScriptFault>
    ensures commands { IfOk result (λ commands. all_given command_of (map view objects.now) ≡ Some (seen_commands commands.items)) }
    ensures fault { IfErr result (IsFirstFault (map view objects.now)) }
{
    let mut commands = Vec::new(alloc);
    for (index, object) in objects.iter().enumerate() {
        match command(alloc, object)? {
            Some(command) => commands.push(command)?,
            None => return Err(ScriptFault::Command(index + 1)),
        }
    }
    Ok(commands)
}
