// The capture rig's interface: the two functions that its C host calls with a sheet and a buffer
// for marks. Each returns one 64-bit number. The header for the host is c/rig.h.
#![tactic(auto)]

ghost use Rattle.rig.specs.Result.{RigCertifies, RigJudges, RigIdentity};

mod result;

use certify::{certify, values_of as certifying_values};
use judge::{judge, values_of as judging_values};
use result::pack;

// Certifies the sequence of a sheet.
#[unsafe(no_mangle)]
pub extern "C" fn rig_certify(sheet: &[u8], marks: &mut [u8]) -> u64
    ensures { RigCertifies sheet.now marks.old marks.new result }
{
    let answer = certify(sheet, marks);
    pack(certifying_values(answer))
}

// Judges the answers of a sheet.
#[unsafe(no_mangle)]
pub extern "C" fn rig_judge(sheet: &[u8], marks: &mut [u8]) -> u64
    ensures rig_judges { RigJudges sheet.now marks.old marks.new result }
    ensures rig_identity { RigIdentity sheet.now result }
{
    let answer = judge(sheet, marks);
    pack(judging_values(answer))
}
