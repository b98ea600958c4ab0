// The converter of networks with closed edges, and of day sheets for them.
ghost use Rattle.convert.specs.Convert.{ConvertCall, ConvertSheetCall};

use capi::converter;
use model::Output;

#[unsafe(no_mangle)]
pub extern "C" fn jukesogbi_convert(network: &[u8], out: &mut [u8]) -> Output
    ensures { ConvertCall network.now out.old result out.new }
{
    converter::jukesogbi_convert(network, out)
}

#[unsafe(no_mangle)]
pub extern "C" fn jukesogbi_convert_sheet(network: &[u8], sheet: &[u8], out: &mut [u8]) -> Output
    ensures { ConvertSheetCall network.now sheet.now out.old result out.new }
{
    converter::jukesogbi_convert_sheet(network, sheet, out)
}
