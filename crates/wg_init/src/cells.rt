//! The rows that runs of cells lie in.
ghost use Rattle.std.specs.Prelude.{◌≡◌};
ghost use Rattle.wg_rows.specs.Rows.{list_eq};
ghost use Rattle.wg_init.specs.Rows.{row_of, row_line, row_object};

use crate::cell_row::CellRow;
use wg_rows::part_runs::aspect_number;
use wg_trace::parts::Cells;

/// The row in which a run lies.
pub fn row_of(run: Cells) -> CellRow
    ensures { result ≡ row_of run }
{
    match run {
        Cells::Bytes { object, .. } => CellRow::Buffer(object),
        Cells::Queries { object, .. } => CellRow::Queries(object),
        Cells::Layers {
            object,
            aspect,
            mip,
            ..
        } => CellRow::Layers {
            object,
            aspect,
            mip,
        },
        Cells::Slices { object, mip, .. } => CellRow::Slices { object, mip },
    }
}

pub fn row_object(row: CellRow) -> u64
    ensures { result ≡ row_object row }
{
    match row {
        CellRow::Buffer(object) => object,
        CellRow::Queries(object) => object,
        CellRow::Layers { object, .. } => object,
        CellRow::Slices { object, .. } => object,
    }
}

pub fn same_row(row: CellRow, other: CellRow) -> bool
    ensures { result ≡ list_eq (row_line row) (row_line other) }
{
    match (row, other) {
        (CellRow::Buffer(object), CellRow::Buffer(other)) => object == other,
        (CellRow::Queries(object), CellRow::Queries(other)) => object == other,
        (
            CellRow::Layers {
                object,
                aspect,
                mip,
            },
            CellRow::Layers {
                object: other,
                aspect: other_aspect,
                mip: other_mip,
            },
        ) => object == other
            && aspect_number(aspect) == aspect_number(other_aspect)
            && mip == other_mip,
        (
            CellRow::Slices { object, mip },
            CellRow::Slices {
                object: other,
                mip: other_mip,
            },
        ) => object == other && mip == other_mip,
        _ => false,
    }
}
