//! What stands in a file as it is written.
ghost use Rattle.std.specs.Prelude.{◌≡◌, ◌^◌, ◌<◌, All, drop, length, take};
ghost use Rattle.dap_xdr.specs.Datasets.{content_of};
ghost use Rattle.nc_writer.specs.Data as spec;
ghost use Rattle.nc_writer.specs.Facts.{IsVariableOf};
ghost use Rattle.nc_writer.specs.File.{all_data};

use crate::data::short_len;
use crate::values::value_len;
use crate::variable::Variable;
use dap_xdr::stretch;
use fm_dataset::Dataset;

// The values of a variable from an offset on, as far as they stand together in a file: maybe none.
fn lent_values<'a>(source: &'a Dataset, variable: &Variable, from: u64) -> &'a [u8]
    requires { IsVariableOf source.now variable.now }
    ensures { take (length result.now) (drop from (spec.data_bytes (content_of source.now) variable.now)) ≡ result.now }
{
    let width = value_len(variable.kind, variable.width);
    let numbers = stretch(source, &variable.sent, from / width);
    let passed = (from % width).min(numbers.len() as u64);
    let (_, rest) = numbers.split_at(passed as usize);
    rest
}

// The data of all variables from an offset on, as far as it stands together in a file: maybe nothing.
pub(crate) fn lent_data<'a>(source: &'a Dataset, variables: &[Variable], from: u64) -> &'a [u8]
    requires each { All (IsVariableOf source.now) variables.now }
    requires small { length (all_data source.now variables.now) < 2 ^ 63 }
    ensures { take (length result.now) (drop from (all_data source.now variables.now)) ≡ result.now }
{
    let mut left = from;
    for variable in variables {
        let len = short_len(source, variable);
        if left < len {
            return lent_values(source, variable, left);
        }
        left -= len;
    }
    &[]
}
