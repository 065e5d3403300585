ghost use Rattle.std.specs.Prelude.{◌≡◌, map, IfOk, option_map};
ghost use Rattle.spec_world_file.specs.WorldFile.{head_of, head_with, head_before};
ghost use Rattle.spec_world_file.specs.WorldFile as file;
ghost use Rattle.world_lines.specs.Heads.{seen_head};

use crate::lines::parts;
use crate::names::{is_name, name_of, names_of};
use base_texts::{Name, NoMemory};
use std::alloc::Global;

/// The ID of a row and its input ports, which may repeat.
#[derive(Drop)]
pub struct Head {
    pub id: Name,
    pub ports: Vec<Name>,
}

/// The head that the word is, `ID` or `ID(p,q)`. None where it is none.
pub fn head_in(alloc: Global, word: &[u8]) -> Result<Option<Head>, NoMemory>
    ensures { IfOk result (λ head. option_map seen_head head ≡ file.head_in word.now) }
{
    let pieces = parts(alloc, word, b'(')?;
    match pieces.as_slice() {
        [id] => with_ports(alloc, id, &[]),
        [id, rest] => before_ports(alloc, id, rest),
        _ => Ok(None),
    }
}

/// The head of an ID and what follows its `(`: ports between commas, and the `)`. None where it is none.
fn before_ports(alloc: Global, id: &[u8], rest: &[u8]) -> Result<Option<Head>, NoMemory>
    ensures { IfOk result (λ head. option_map seen_head head ≡ head_before id.now rest.now) }
{
    match rest.strip_suffix(b")".as_slice()) {
        Some(list) => {
            let ports = parts(alloc, list, b',')?;
            with_ports(alloc, id, ports.as_slice())
        }
        None => Ok(None),
    }
}

/// The head of an ID with these ports. None where one of them all is no name.
fn with_ports(alloc: Global, id: &[u8], ports: &[&[u8]]) -> Result<Option<Head>, NoMemory>
    ensures { IfOk result (λ head. option_map seen_head head ≡ head_with id.now (map (λ port. port.now) ports.now)) }
{
    if !is_name(id) {
        return Ok(None);
    }
    match names_of(alloc, ports)? {
        Some(ports) => {
            let id = name_of(alloc, id)?;
            Ok(Some(Head { id, ports }))
        }
        None => Ok(None),
    }
}
