//! What a line needs, before it is begun: all memory of it is taken here.
ghost use Rattle.std.specs.Prelude.{◌≡◌, ◌<◌, ◌+◌, ◌^◌, All, IfOk, List, ℕ, OnOk, Some, is_some, length, map, replicate, true, false};
ghost use Rattle.std.specs.Option.{option_map_or};
ghost use Rattle.command_table.specs.declared.command.Command.TheVariants.{Flush as FlushCommand, List as ListCommand, Read as ReadCommand};
ghost use Rattle.disk_model.specs.State.{IsLawful, State};
ghost use Rattle.data_lines.specs.DataLines.{is_through, range_of, runs_beside, volume_named, writes, zero_sector};
ghost use Rattle.piece_split.specs.Pieces.{pieces_of};
ghost use Rattle.world_acts.specs.declared.open_line.Work.TheVariants.{Read, Whole, Write};
ghost use Rattle.world_acts.specs.declared.volumes.VolumeRow.{VolumeRow as RowRecord};
ghost use Rattle.world_acts.specs.Acts.{IsGrown, world};
ghost use Rattle.world_acts.specs.Orderly.{IsOrderly};
ghost use Rattle.world_acts.specs.Rooms.{IsCounted};
ghost use Rattle.world_acts.specs.Volumes.{AreLaidOut};
ghost use Rattle.line_plans.specs.declared.preparing.NewPiece.{NewPiece as NewRecord};
ghost use Rattle.line_plans.specs.Plans.{HasRoomFor, HasTables, IsAlone, IsBroughtBy, IsCut, IsFlushing, IsPlanFor, IsReadInto, IsRefusal};
ghost use Rattle.line_plans.specs.Plans.{MayBeBegun};
ghost use Rattle.line_plans.specs.Judging.{number_on};
ghost use Rattle.line_plans.specs.Plans.{key_of, listed_of, listed_row, name_at, opened_on, plan_room};

use crate::judging::{judge, key_on};
use command_table::{Command, Path};
use data_lines::contents_for;
use disk_model::Shelf;
use flush_waits::Ticket;
use group_plan::{PlanRefusal, copied_bytes};
use line_answers::Answer;
use lvm_script::Line;
use piece_split::{pieces_cover_requests, split};
use sector_base::{ItemList, Piece, Sectors, Text};
use seg_place::sectors;
use std::alloc::{AllocError, Global};
use vg_check::Checked;
use world_acts::{Core, OpenLine, Room, VolumeRow, Volumes, Work};

/// A piece of a line that is to be begun: its sectors, and room to wait where its flush is awaited.
#[derive(Drop)]
pub struct NewPiece {
    pub piece: Piece,
    pub sectors: Sectors,
    pub ticket: Option<Ticket>,
}

/// What a line is to be: how it is begun, its pieces, and a ticket for each flush that it may wait for.
#[derive(Drop)]
pub struct Plan {
    pub opened: OpenLine,
    pub pieces: Vec<NewPiece>,
    pub tickets: Vec<Ticket>,
}

/// What the line is to be, with all memory taken. Nothing has changed but what is spare. Only memory can be wanting.
pub fn prepare<S: Shelf>(shelf: &mut S, core: &mut Core, line: &Line) -> Result<Plan, AllocError>
    requires orderly { IsOrderly (world (S.state shelf.old) core.old) }
    requires beside { runs_beside line.now.command ≡ true }
    ensures grown { IsGrown (world (S.state shelf.old) core.old) (world (S.state shelf.new) core.new) }
    ensures may { IfOk result (λ plan. MayBeBegun (world (S.state shelf.new) core.new) line.now plan) }
{
    let plan = plan_of(core, line)?;
    reserve(shelf, core, &plan)?;
    Ok(plan)
}

// What the line is to be.
fn plan_of(core: &Core, line: &Line) -> Result<Plan, AllocError>
    requires laid { (sizes : List ℕ) × AreLaidOut core.now.volumes sizes }
    requires beside { runs_beside line.now.command ≡ true }
    ensures { IfOk result (IsPlanFor core.now line.now) }
{
    match &line.command {
        Command::List => list_plan(core, line),
        Command::Wait => Ok(whole(core.alloc, 0, Answer::Fine)),
        Command::Read { path, start, count } => read_line(core, line, path, *start, *count),
        Command::Fill {
            path,
            start,
            count,
            through,
            ..
        } => write_line(core, line, path, *start, *count, *through),
        Command::Write {
            path,
            start,
            hex,
            through,
        } => {
            let count = hex.as_bytes().len() as u64 / 1_024;
            write_line(core, line, path, *start, count, *through)
        }
        Command::Flush { path } => flush_line(core, line, path),
        _ => unreachable!(),
    }
}

// Of a line that lists the volumes.
fn list_plan(core: &Core, line: &Line) -> Result<Plan, AllocError>
    requires laid { (sizes : List ℕ) × AreLaidOut core.now.volumes sizes }
    requires lists { line.now.command ≡ ListCommand }
    ensures { IfOk result (IsPlanFor core.now line.now) }
{
    let list = listed(core.alloc, &core.volumes)?;
    Ok(whole(core.alloc, 0, Answer::Listed(list)))
}

// Of a line that reads.
fn read_line(
    core: &Core,
    line: &Line,
    path: &Path,
    start: u64,
    count: u64,
) -> Result<Plan, AllocError>
    requires laid { (sizes : List ℕ) × AreLaidOut core.now.volumes sizes }
    requires reads { line.now.command ≡ ReadCommand path.now start count }
    ensures { IfOk result (IsPlanFor core.now line.now) }
{
    pieces_cover_requests();
    match judge(core.alloc, &core.volumes, path, false, Some((start, count))) {
        Ok(row) => read_plan(core.alloc, row.key, start, count),
        Err(why) => refused_plan(core, path, why),
    }
}

// Of a line that writes.
fn write_line(
    core: &Core,
    line: &Line,
    path: &Path,
    start: u64,
    count: u64,
    through: bool,
) -> Result<Plan, AllocError>
    requires laid { (sizes : List ℕ) × AreLaidOut core.now.volumes sizes }
    requires volume { volume_named line.now.command ≡ Some path.now }
    requires range { range_of line.now.command ≡ Some (start, count) }
    requires writes { writes line.now.command ≡ true }
    requires through { through ≡ is_through line.now.command }
    ensures { IfOk result (IsPlanFor core.now line.now) }
{
    pieces_cover_requests();
    match judge(core.alloc, &core.volumes, path, true, Some((start, count))) {
        Ok(row) => write_plan(core.alloc, &line.command, row.key, start, count, through),
        Err(why) => refused_plan(core, path, why),
    }
}

// Of a line that flushes its volume.
fn flush_line(core: &Core, line: &Line, path: &Path) -> Result<Plan, AllocError>
    requires laid { (sizes : List ℕ) × AreLaidOut core.now.volumes sizes }
    requires flushes { line.now.command ≡ FlushCommand path.now }
    ensures { IfOk result (IsPlanFor core.now line.now) }
{
    match judge(core.alloc, &core.volumes, path, false, None) {
        Ok(row) => flush_plan(core.alloc, row.key, core.waits.disks()),
        Err(why) => refused_plan(core, path, why),
    }
}

// A line on this path that is refused.
fn refused_plan(core: &Core, path: &Path, why: PlanRefusal) -> Result<Plan, AllocError>
    requires { (sizes : List ℕ) × AreLaidOut core.now.volumes sizes }
    ensures { IfOk result (IsRefusal (option_map_or (key_of core.now.volumes) (number_on core.now.volumes.group path.now) 0) why) }
{
    match why {
        PlanRefusal::Refused(refusal) => {
            let key = key_on(&core.volumes, path);
            Ok(alone(core.alloc, OpenLine::refused(key, Answer::Refused(refusal))))
        }
        PlanRefusal::NoMemory => Err(AllocError),
    }
}

// A line without pieces and flushes.
fn alone(alloc: Global, opened: OpenLine) -> Plan
    ensures { IsAlone opened result }
{
    Plan {
        opened,
        pieces: Vec::new(alloc),
        tickets: Vec::new(alloc),
    }
}

// One that takes place as a whole, with this answer.
fn whole(alloc: Global, key: u32, answer: Answer) -> Plan
    ensures { IsAlone (opened_on key (Whole answer)) result }
{
    alone(alloc, OpenLine::new(key, Work::Whole(answer)))
}

// So many sectors, where memory can hold as many.
fn counted(count: u64) -> Result<u32, AllocError>
    ensures { IfOk result (λ few. few ≡ count) }
{
    if count <= 4_294_967_295 {
        Ok(count as u32)
    } else {
        Err(AllocError)
    }
}

// A read of these sectors of the volume with this key.
fn read_plan(alloc: Global, key: u32, start: u64, count: u64) -> Result<Plan, AllocError>
    requires { start + count < 2 ^ 64 }
    ensures { IfOk result (IsCut (opened_on key (Read start (replicate count zero_sector))) (pieces_of key start count false) IsReadInto) }
{
    let count = counted(count)?;
    let buffer = Sectors::zeroed(alloc, count)?;
    let pieces = read_pieces(alloc, key, start, count)?;
    Ok(Plan {
        opened: OpenLine::new(key, Work::Read(start, buffer)),
        pieces,
        tickets: Vec::new(alloc),
    })
}

// Its pieces, each with room for its sectors.
fn read_pieces(alloc: Global, key: u32, start: u64, count: u32) -> Result<Vec<NewPiece>, AllocError>
    requires { start + count < 2 ^ 64 }
    ensures cut { IfOk result (λ pieces. map (λ (new : NewRecord). new.piece) pieces.items ≡ pieces_of key start count false) }
    ensures each { IfOk result (λ pieces. All IsReadInto pieces.items) }
{
    let list = split(alloc, key, start, count, false)?;
    let mut pieces = Vec::with_capacity(alloc, list.len())?;
    for piece in list.as_slice() {
        let sectors = Sectors::zeroed(alloc, piece.count)?;
        pieces.push(NewPiece {
            piece: *piece,
            sectors,
            ticket: None,
        })?;
    }
    Ok(pieces)
}

// A write of these sectors, by this command. Where it is through, each piece may wait for a flush.
fn write_plan(
    alloc: Global,
    command: &Command,
    key: u32,
    start: u64,
    count: u64,
    through: bool,
) -> Result<Plan, AllocError>
    requires fits { start + count < 2 ^ 64 }
    requires writes { writes command.now ≡ true }
    requires range { range_of command.now ≡ Some (start, count) }
    requires through { through ≡ is_through command.now }
    ensures { IfOk result (IsCut (opened_on key Write) (pieces_of key start count true) (IsBroughtBy command.now)) }
{
    let count = counted(count)?;
    let pieces = write_pieces(alloc, command, key, start, count, through)?;
    Ok(Plan {
        opened: OpenLine::new(key, Work::Write),
        pieces,
        tickets: Vec::new(alloc),
    })
}

// Its pieces, each with what the command brings to it.
fn write_pieces(
    alloc: Global,
    command: &Command,
    key: u32,
    start: u64,
    count: u32,
    through: bool,
) -> Result<Vec<NewPiece>, AllocError>
    requires fits { start + count < 2 ^ 64 }
    requires writes { writes command.now ≡ true }
    requires range { range_of command.now ≡ Some (start, count) }
    requires through { through ≡ is_through command.now }
    ensures cut { IfOk result (λ pieces. map (λ (new : NewRecord). new.piece) pieces.items ≡ pieces_of key start count true) }
    ensures each { IfOk result (λ pieces. All (IsBroughtBy command.now) pieces.items) }
{
    pieces_cover_requests();
    let list = split(alloc, key, start, count, true)?;
    let mut pieces = Vec::with_capacity(alloc, list.len())?;
    for piece in list.as_slice() {
        let sectors = contents_for(alloc, command, piece.first, piece.count)?;
        let ticket = ticket_if(alloc, through)?;
        pieces.push(NewPiece {
            piece: *piece,
            sectors,
            ticket,
        })?;
    }
    Ok(pieces)
}

// Room to wait for a flush, where one is awaited.
fn ticket_if(alloc: Global, through: bool) -> Result<Option<Ticket>, AllocError>
    ensures { IfOk result (λ ticket. is_some ticket ≡ through) }
{
    if through {
        Ok(Some(Ticket::new(alloc)?))
    } else {
        Ok(None)
    }
}

// A flush of the volume with this key, which may wait on each disk.
fn flush_plan(alloc: Global, key: u32, disks: u32) -> Result<Plan, AllocError>
    ensures { IfOk result (IsFlushing key disks) }
{
    let tickets = tickets_for(alloc, disks)?;
    Ok(Plan {
        opened: OpenLine::new(key, Work::Whole(Answer::Fine)),
        pieces: Vec::new(alloc),
        tickets,
    })
}

fn tickets_for(alloc: Global, disks: u32) -> Result<Vec<Ticket>, AllocError>
    ensures { IfOk result (λ tickets. length tickets.items ≡ disks) }
{
    let mut tickets = Vec::with_capacity(alloc, disks as usize)?;
    for _ in 0..disks {
        tickets.push(Ticket::new(alloc)?)?;
    }
    Ok(tickets)
}

// Each visible volume with its length.
fn listed(alloc: Global, volumes: &Volumes) -> Result<ItemList<(Text, u64)>, AllocError>
    requires { (sizes : List ℕ) × AreLaidOut volumes.now sizes }
    ensures { IfOk result (λ list. list ≡ listed_of volumes.now) }
{
    match &volumes.group {
        Some(group) => listed_in(alloc, group, &volumes.rows),
        None => Ok(ItemList::from_vec(Vec::new(alloc))),
    }
}

// The volumes of these rows, with their lengths.
fn listed_in(
    alloc: Global,
    group: &Checked,
    rows: &[VolumeRow],
) -> Result<ItemList<(Text, u64)>, AllocError>
    requires { All (λ (row : RowRecord). row.lv < length group.now.lvs) rows.now }
    ensures { IfOk result (λ list. list ≡ map (listed_row group.now) rows.now) }
{
    let mut list = Vec::with_capacity(alloc, rows.len())?;
    for row in rows {
        let name = copied_bytes(alloc, name_of(group, row.lv))?;
        list.push((name, sectors(group, row.lv)))?;
    }
    Ok(ItemList::from_vec(list))
}

// The name of the volume with this number.
fn name_of(group: &Checked, lv: u32) -> &[u8]
    requires { lv < length group.now.lvs }
    ensures { result.now ≡ name_at group.now lv }
{
    group.group().lvs.get(lv as usize).0.as_bytes()
}

// What the line may use up. It is refused where that can't be counted.
fn room_of(plan: &Plan) -> Result<Room, AllocError>
    ensures { IfOk result (λ room. room ≡ plan_room plan.now) }
{
    let flushes = plan.tickets.len() as u64;
    let mut room = Room {
        ops: flushes,
        waits: flushes,
        ..Room::of_line(&plan.opened)
    };
    for new in &plan.pieces {
        room = room.with(Room::of_piece(&new.piece, new.ticket.is_some()))?;
    }
    Ok(room)
}

// Takes the memory of the line, beside what is owed to those under way.
fn reserve<S: Shelf>(shelf: &mut S, core: &mut Core, plan: &Plan) -> Result<(), AllocError>
    requires orderly { IsOrderly (world (S.state shelf.old) core.old) }
    ensures grown { IsGrown (world (S.state shelf.old) core.old) (world (S.state shelf.new) core.new) }
    ensures room { OnOk result (HasRoomFor (world (S.state shelf.new) core.new) plan.now) }
{
    let room = core.owed.with(room_of(plan)?)?;
    see_counts(&room);
    reserve_tables(core, plan.pieces.len() as u64, room)?;
    shelf.reserve(room.ops, room.sectors)?;
    Ok(())
}

// Does nothing: that each of the counts fits is known from then on.
fn see_counts(room: &Room)
    ensures { IsCounted room.now }
{
    see_count(room.ops);
    see_count(room.sectors);
    see_count(room.writes);
    see_count(room.waits);
    see_count(room.entries);
}

fn see_count(count: u64)
    ensures { count < 2 ^ 64 }
{}

// Takes that of the tables: for a line, so many pieces, and this room.
fn reserve_tables(core: &mut Core, pieces: u64, room: Room) -> Result<(), AllocError>
    ensures grown { (shelf : State) → IsLawful shelf → IsGrown (world shelf core.old) (world shelf core.new) }
    ensures room { OnOk result (HasTables core.new pieces room) }
{
    let entries = room.entries.checked_add(1).ok_or(AllocError)?;
    core.opens.reserve()?;
    core.lines.reserve(entries)?;
    core.waits.reserve(room.writes, room.waits)?;
    core.pieces.reserve(pieces, room.ops)?;
    Ok(())
}
