// The C functions of the holdings file (2026-01). What a call gives stands in specs/Holdings.antt.
ghost use Rattle.hessian.specs.Holdings.{HoldingsListGives, HoldingsAddGives, HoldingsAddAllGives};

use crate::HessianAnswer;

// Lists the entries of a file, the first `used` bytes of a buffer.
#[unsafe(no_mangle)]
pub extern "C" fn hessian_holdings_list(
    file: &[u8],
    used: u64,
    rows: &mut [u64],
    bytes: &mut [u8],
    list: &mut [u8],
) -> HessianAnswer
    ensures { HoldingsListGives
        file.now used rows.old bytes.old list.old
        result list.new }
{
    HessianAnswer::from(holdings_file::list_bytes(file, used, rows, bytes, list))
}

// Adds a record, by a message of it, to a file.
#[unsafe(no_mangle)]
pub extern "C" fn hessian_holdings_add(
    file: &mut [u8],
    used: u64,
    message: &[u8],
    rows: &mut [u64],
    bytes: &mut [u8],
) -> HessianAnswer
    ensures { HoldingsAddGives
        file.old used message.now rows.old bytes.old
        result file.new }
{
    HessianAnswer::from(holdings_file::add(file, used, message, rows, bytes))
}

// Adds records, laid out as entries, to a file, up to the first that is refused.
#[unsafe(no_mangle)]
pub extern "C" fn hessian_holdings_add_all(
    file: &mut [u8],
    used: u64,
    records: &[u8],
    rows: &mut [u64],
    bytes: &mut [u8],
    numbers: &mut [u64],
) -> HessianAnswer
    ensures { HoldingsAddAllGives
        file.old used records.now rows.old bytes.old
        numbers.old
        result file.new numbers.new }
{
    HessianAnswer::from(holdings_file::add_all(file, used, records, rows, bytes, numbers))
}
