//! The image of a description: its layout, read and written.
#![tactic(auto)]

mod fields;
mod header;
mod laws;
mod numbers;
mod parts;
mod rows;
mod starts;
mod versions;
mod writing;

pub use fields::{u16_at, u32_at};
pub use header::{
    EXTENDED_HEADER_LENGTH, HEADER_LENGTH, attribute_count, code_length, counts, dd_revision,
    device_revision, device_type, element_count, extension_padding, has_magic, header_padding,
    manufacturer, names_length, string_count, strings_length, total_length, variable_count,
    version,
};
pub use laws::{fields_are_parts, written_strings_are_read};
pub use numbers::type_of;
pub use parts::{AttributeRow, Counts, NameRow, Parts, StringRow, VarKind};
pub use rows::{
    ATTRIBUTE_ROW, ELEMENT_ROW, NAME_ROW, STRING_ROW, VARIABLE_ROW, attribute_item, attribute_kind,
    attribute_length, attribute_number, attribute_padding, attribute_start, attribute_sub,
    element_array, element_number, element_variable, name_length, name_padding, name_start,
    string_length, string_start, variable_padding, variable_size, variable_type,
};
pub use starts::{
    attribute_rows_start, code_start, element_rows_start, name_bytes_start, name_rows_start,
    sections_end, string_bytes_start, string_rows_start, variable_rows_start,
};
pub use versions::Version;
pub use writing::{CODE_LIMIT, WriteFault, write};
