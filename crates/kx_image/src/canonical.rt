//! Whether records are canonical: each row, written again, gives its bytes.
ghost use Rattle.std.specs.Prelude.{◌≡◌, ◌+◌, ◌*◌, ◌≤◌, ◌↔◌, ℕ, List, IsTrue, OnOk, IfErr, length};
ghost use Rattle.kx_image.specs.Cut.{record_at};
ghost use Rattle.kx_image.specs.Image.{IsCanonical, HasImageFault};
ghost use Rattle.kx_image.specs.Records as spec;
ghost use Rattle.kx_image.specs.Shape.{header_of, header_size, entries_start, keys_start, groups_start, cells_start, keysyms_start, indicators_start, group_names_start, group_count};
ghost use Rattle.kx_image.specs.Starts.{IsShape};
ghost use Rattle.kx_image.specs.Canonical.{IsCanonicalTable, NamesGarbled, AreCanonical};

use crate::fault::ImageFault;
use crate::header::Header;
use crate::records::{
    CELL_SIZE, ENTRY_SIZE, GROUP_NAME_SIZE, GROUP_SIZE, INDICATOR_SIZE, KEY_SIZE, KEYSYM_SIZE,
    TYPE_SIZE, cell_at, cell_bytes, entry_at, entry_bytes, group_at, group_bytes, group_name_at,
    group_name_bytes, indicator_at, indicator_bytes, key_at, key_bytes, keysym_at, keysym_bytes,
    type_at, type_bytes,
};
use crate::shape::Starts;
use kx_tables::{
    CellRow, EntryRow, GroupNameRow, GroupRow, IndicatorRow, KeyRow, RecordKind, TypeRow,
};

/// A kind of record.
trait Record {
    ghost size: { ℕ };

    ghost is_canonical: { List ℕ → Type 0 };

    /// Whether a record's bytes are those of the row that they tell.
    fn is_canonical(bytes: &[u8]) -> bool
        requires { length bytes.now ≡ size }
        ensures { IsTrue result ↔ is_canonical bytes.now };
}

impl Record for TypeRow {
    ghost size = { 16 };

    ghost is_canonical = { IsCanonical spec.type_bytes spec.type_of };

    fn is_canonical(bytes: &[u8]) -> bool {
        type_bytes(type_at(bytes)).as_slice() == bytes
    }
}

impl Record for EntryRow {
    ghost size = { 4 };

    ghost is_canonical = { IsCanonical spec.entry_bytes spec.entry_of };

    fn is_canonical(bytes: &[u8]) -> bool {
        entry_bytes(entry_at(bytes)).as_slice() == bytes
    }
}

impl Record for KeyRow {
    ghost size = { 16 };

    ghost is_canonical = { IsCanonical spec.key_bytes spec.key_of };

    fn is_canonical(bytes: &[u8]) -> bool {
        key_bytes(key_at(bytes)).as_slice() == bytes
    }
}

impl Record for GroupRow {
    ghost size = { 8 };

    ghost is_canonical = { IsCanonical spec.group_bytes spec.group_of };

    fn is_canonical(bytes: &[u8]) -> bool {
        group_bytes(group_at(bytes)).as_slice() == bytes
    }
}

impl Record for CellRow {
    ghost size = { 12 };

    ghost is_canonical = { IsCanonical spec.cell_bytes spec.cell_of };

    fn is_canonical(bytes: &[u8]) -> bool {
        cell_bytes(cell_at(bytes)).as_slice() == bytes
    }
}

impl Record for u32 {
    ghost size = { 4 };

    ghost is_canonical = { IsCanonical spec.keysym_bytes spec.keysym_of };

    fn is_canonical(bytes: &[u8]) -> bool {
        keysym_bytes(keysym_at(bytes)).as_slice() == bytes
    }
}

impl Record for IndicatorRow {
    ghost size = { 16 };

    ghost is_canonical = { IsCanonical spec.indicator_bytes spec.indicator_of };

    fn is_canonical(bytes: &[u8]) -> bool {
        indicator_bytes(indicator_at(bytes)).as_slice() == bytes
    }
}

impl Record for GroupNameRow {
    ghost size = { 8 };

    ghost is_canonical = { IsCanonical spec.group_name_bytes spec.group_name_of };

    fn is_canonical(bytes: &[u8]) -> bool {
        group_name_bytes(group_name_at(bytes)).as_slice() == bytes
    }
}

/// Whether each record of a table is canonical; else the fault that names one which doesn't.
fn check_table<R: Record>(
    bytes: &[u8],
    start: usize,
    size: usize,
    count: u32,
    part: RecordKind,
) -> Result<(), ImageFault>
    requires size { size ≡ R.size }
    requires within { start + size * count ≤ length bytes.now }
    ensures ok { OnOk result (IsCanonicalTable R.is_canonical size count start bytes.now) }
    ensures garbled { IfErr result (NamesGarbled R.is_canonical part size count start bytes.now) }
{
    for index in 0..count {
        let place = start + size * index as usize;
        if !R::is_canonical(&bytes[place..place + size]) {
            return Err(ImageFault::BadRecord(part, index));
        }
    }
    Ok(())
}

fn check_types(bytes: &[u8], header: Header, groups: u32) -> Result<(), ImageFault>
    requires { IsShape bytes.now header groups }
    ensures ok { OnOk result (IsCanonicalTable (IsCanonical spec.type_bytes spec.type_of) 16
        (header_of bytes.now).types (header_size (header_of bytes.now).version) bytes.now) }
    ensures fault { IfErr result (HasImageFault bytes.now) }
{
    let start = Starts::of(header, groups).types;
    check_table::<TypeRow>(
        bytes,
        start,
        TYPE_SIZE,
        u32::from(header.types),
        RecordKind::KeyType,
    )
}

fn check_entries(bytes: &[u8], header: Header, groups: u32) -> Result<(), ImageFault>
    requires { IsShape bytes.now header groups }
    ensures ok { OnOk result (IsCanonicalTable (IsCanonical spec.entry_bytes spec.entry_of) 4
        (header_of bytes.now).entries (entries_start (header_of bytes.now)) bytes.now) }
    ensures fault { IfErr result (HasImageFault bytes.now) }
{
    let start = Starts::of(header, groups).entries;
    check_table::<EntryRow>(bytes, start, ENTRY_SIZE, header.entries, RecordKind::Entry)
}

fn check_keys(bytes: &[u8], header: Header, groups: u32) -> Result<(), ImageFault>
    requires { IsShape bytes.now header groups }
    ensures ok { OnOk result (IsCanonicalTable (IsCanonical spec.key_bytes spec.key_of) 16
        (header_of bytes.now).keys (keys_start (header_of bytes.now)) bytes.now) }
    ensures fault { IfErr result (HasImageFault bytes.now) }
{
    let start = Starts::of(header, groups).keys;
    check_table::<KeyRow>(
        bytes,
        start,
        KEY_SIZE,
        u32::from(header.keys),
        RecordKind::Key,
    )
}

fn check_groups(bytes: &[u8], header: Header, groups: u32) -> Result<(), ImageFault>
    requires { IsShape bytes.now header groups }
    ensures ok { OnOk result (IsCanonicalTable (IsCanonical spec.group_bytes spec.group_of) 8
        (group_count (header_of bytes.now) bytes.now) (groups_start (header_of bytes.now))
        bytes.now) }
    ensures fault { IfErr result (HasImageFault bytes.now) }
{
    let start = Starts::of(header, groups).groups;
    check_table::<GroupRow>(bytes, start, GROUP_SIZE, groups, RecordKind::Group)
}

fn check_cells(bytes: &[u8], header: Header, groups: u32) -> Result<(), ImageFault>
    requires { IsShape bytes.now header groups }
    ensures ok { OnOk result (IsCanonicalTable (IsCanonical spec.cell_bytes spec.cell_of) 12
        (header_of bytes.now).cells (cells_start (header_of bytes.now)
        (group_count (header_of bytes.now) bytes.now)) bytes.now) }
    ensures fault { IfErr result (HasImageFault bytes.now) }
{
    let start = Starts::of(header, groups).cells;
    check_table::<CellRow>(bytes, start, CELL_SIZE, header.cells, RecordKind::Cell)
}

fn check_keysyms(bytes: &[u8], header: Header, groups: u32) -> Result<(), ImageFault>
    requires { IsShape bytes.now header groups }
    ensures ok { OnOk result (IsCanonicalTable (IsCanonical spec.keysym_bytes spec.keysym_of) 4
        (header_of bytes.now).keysyms (keysyms_start (header_of bytes.now)
        (group_count (header_of bytes.now) bytes.now)) bytes.now) }
    ensures fault { IfErr result (HasImageFault bytes.now) }
{
    let start = Starts::of(header, groups).keysyms;
    check_table::<u32>(
        bytes,
        start,
        KEYSYM_SIZE,
        header.keysyms,
        RecordKind::Keysym,
    )
}

fn check_indicators(bytes: &[u8], header: Header, groups: u32) -> Result<(), ImageFault>
    requires { IsShape bytes.now header groups }
    ensures ok { OnOk result (IsCanonicalTable (IsCanonical spec.indicator_bytes spec.indicator_of)
        16 (header_of bytes.now).indicators
        (indicators_start (header_of bytes.now) (group_count (header_of bytes.now) bytes.now))
        bytes.now) }
    ensures fault { IfErr result (HasImageFault bytes.now) }
{
    let start = Starts::of(header, groups).indicators;
    check_table::<IndicatorRow>(
        bytes,
        start,
        INDICATOR_SIZE,
        u32::from(header.indicators),
        RecordKind::Indicator,
    )
}

fn check_group_names(bytes: &[u8], header: Header, groups: u32) -> Result<(), ImageFault>
    requires { IsShape bytes.now header groups }
    ensures ok { OnOk result (IsCanonicalTable
        (IsCanonical spec.group_name_bytes spec.group_name_of) 8 (header_of bytes.now).group_names
        (group_names_start (header_of bytes.now) (group_count (header_of bytes.now) bytes.now))
        bytes.now) }
    ensures fault { IfErr result (HasImageFault bytes.now) }
{
    let start = Starts::of(header, groups).group_names;
    check_table::<GroupNameRow>(
        bytes,
        start,
        GROUP_NAME_SIZE,
        u32::from(header.group_names),
        RecordKind::GroupName,
    )
}

/// Whether each record is canonical; else the fault that names one which doesn't.
pub fn check_records(bytes: &[u8], header: Header, groups: u32) -> Result<(), ImageFault>
    requires { IsShape bytes.now header groups }
    ensures ok { OnOk result (AreCanonical bytes.now) }
    ensures fault { IfErr result (HasImageFault bytes.now) }
{
    check_types(bytes, header, groups)?;
    check_entries(bytes, header, groups)?;
    check_keys(bytes, header, groups)?;
    check_groups(bytes, header, groups)?;
    check_cells(bytes, header, groups)?;
    check_keysyms(bytes, header, groups)?;
    check_indicators(bytes, header, groups)?;
    check_group_names(bytes, header, groups)?;
    Ok(())
}
