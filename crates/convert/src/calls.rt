// The two calls of the converter. They ask nothing of their arguments.
ghost use Rattle.convert.specs.Convert.{ConvertCall, ConvertSheetCall};

use crate::network::leave_out;
use crate::refusals::{lines_refusal, old_refusal};
use crate::sheets::renumber;
use contents::{NETWORK_ENTRIES, body_of, read};
use model::Output;
use reader::oracle::{CLOSED, EDGES, NODES};
use sheet::form::line_body;

// The network without its closed edges.
pub fn convert(f: &[u8], out: &mut [u8]) -> Output
    ensures { ConvertCall f.now out.old result out.new }
{
    if let Err(broken) = old_refusal(f) {
        return Output {
            rule: broken.number(),
            size: 0,
        };
    }
    let c = read(NETWORK_ENTRIES, f);
    leave_out(c.body(f, NODES), c.body(f, EDGES), c.body(f, CLOSED), out)
}

// The sheet for it: without its lines about closed edges, and with the new numbers of the others.
pub fn convert_sheet(f: &[u8], sheet: &[u8], out: &mut [u8]) -> Output
    ensures { ConvertSheetCall f.now sheet.now out.old result out.new }
{
    if let Err(broken) = lines_refusal(f, sheet) {
        return Output {
            rule: broken.number(),
            size: 0,
        };
    }
    renumber(body_of(NETWORK_ENTRIES, f, CLOSED), line_body(sheet), out)
}
