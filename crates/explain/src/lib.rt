// A report with its refusal in words: a sheet's bytes in, the report's lines and the explanation out.
#![tactic(auto)]

ghost use Rattle.std.specs.Prelude.{◌+◌, ◌≤◌, length};
ghost use Rattle.ray_tracing.specs.Report.{reported_of, Puts};
ghost use Rattle.ray_tracing.specs.Explain.{explained};
ghost use Rattle.report_text.specs.Put.{Put};
ghost use Rattle.explain.specs.Longest.{longest_explained};

use ray_tracing::OutputTooShort;
use report::put_report;
use report_text::put_text;
use report_words::put_words;

fn put_explained(sheet: &[u8], out: &mut [u8]) -> usize
    requires { longest_explained + 24 ≤ length out.old }
    ensures { Put out.old 0 (explained sheet.now) result out.new }
{
    let printed = put_report(sheet, out);
    put_words(out, printed.end, printed.refusal)
}

// A report's lines and the explanation below them, if they fit into what is lent: no more than 6,381 bytes are ever needed.
pub fn explain(sheet: &[u8], out: &mut [u8]) -> Result<usize, OutputTooShort>
    ensures { Puts (explained sheet.now) out.old (reported_of result) out.new }
{
    let mut text = [0u8; 6405];
    let n = put_explained(sheet, &mut text);
    put_text(out, &text[..n])
}
