//! The certificate of a failure.

ghost use Rattle.std.specs.Prelude.{◌≡◌, ℕ, Some};
ghost use Rattle.pmf_image.specs.{Image.{IsAllowed}, Certificate.{Fits, image_of}, Contradiction.{Contradicts}, declared.certificate.Certificate.{Certificate}};
ghost use Rattle.pmf_verdict.specs.{Checked.{rows_in}, Explained.{Explains, certificate_of}};

use crate::verdict::Verdict;
use pmf_event::{Finding, Row, line_of};
use pmf_image::Certificate;

/// The certificate of the failure at this place: `Some` exactly where the row there is a FAIL of PERSIST,
/// ORDERED or CHECKEND. Its crash is that of the row; of ORDERED its full line is that of the byte `after`.
/// It looks through the rows once.
pub fn explain(verdict: &Verdict, place: u32) -> Option<Certificate>
    ensures value { Explains (rows_in verdict.now) place result }
    // It can be asked what the image holds.
    ensures fits { (c : Certificate) → result ≡ Some c
        → Fits verdict.now.section.events c }
    // The image is allowed, nothing in it is torn, and the assertion doesn't hold in it.
    ensures allowed { (c : Certificate) → result ≡ Some c
        → IsAllowed verdict.now.section.events c.crash (image_of verdict.now.section.events c) }
    ensures real { (c : Certificate) → result ≡ Some c
        → Contradicts verdict.now.section.events place c }
{
    first_certificate(verdict.rows(), place)
}

fn first_certificate(rows: &[Row], place: u32) -> Option<Certificate>
    ensures { Explains rows.now place result }
{
    for row in rows {
        if row.place == place {
            let certificate = certificate_of(place, row.finding);
            if certificate.is_some() {
                return certificate;
            }
        }
    }
    None
}

/// The certificate of this finding at the place: `Some` exactly of a FAIL of PERSIST, ORDERED or CHECKEND.
pub fn certificate_of(place: u32, finding: Finding) -> Option<Certificate>
    ensures { result ≡ certificate_of place finding }
{
    match finding {
        Finding::PersistFail { .. } | Finding::CheckFail { .. } => Some(Certificate {
            crash: place,
            full_line: None,
        }),
        Finding::OrderedFail { after, crash, .. } => Some(Certificate {
            crash,
            full_line: Some(line_of(after)),
        }),
        _ => None,
    }
}
