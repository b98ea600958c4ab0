// The converter of networks with closed edges, and of day sheets for them.
ghost use Rattle.convert.specs.Convert.{ConvertCall, ConvertSheetCall};

use convert::calls;
use model::Output;

pub fn jukesogbi_convert(network: &[u8], out: &mut [u8]) -> Output
    ensures { ConvertCall network.now out.old result out.new }
{
    calls::convert(network, out)
}

pub fn jukesogbi_convert_sheet(network: &[u8], sheet: &[u8], out: &mut [u8]) -> Output
    ensures { ConvertSheetCall network.now sheet.now out.old result out.new }
{
    calls::convert_sheet(network, sheet, out)
}
