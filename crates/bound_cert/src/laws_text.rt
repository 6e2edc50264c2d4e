//! Laws on the text of a certificate.
ghost use Rattle.std.specs.Prelude.{◌≡◌, ◌+◌, ◌*◌, ◌≤◌, ℕ, List, take, length, sum_by, Ok};
ghost use Rattle.tdm_problem.specs.Board.{Board, IsBoard};
ghost use Rattle.bound_cert.specs.Limits.{most_potential_values};
ghost use Rattle.bound_cert.specs.Certificate.{Cert, IsCert, IsCertFor};
ghost use Rattle.bound_cert.specs.CertText.{cert_text};
ghost use Rattle.bound_cert.specs.CertReading.{cert_of, most_bytes};

/// What is written reads back: the text of a certificate for a board, where it has at most 2^30 bytes, says
/// just that certificate.
pub fn reads_back()
    ensures { (board : Board) (cert : Cert) → IsCert cert → IsCertFor board cert →
        length (cert_text cert) ≤ most_bytes →
        cert_of board (cert_text cert) ≡ Ok cert }
{}

/// A text has at most 17 bytes for the header, 14 for each weight, 16 for each length, 20 for each value of a
/// potential and 5 for each choice, so that of a certificate with at most 2^24 values is never too long.
pub fn text_is_short()
    ensures bytes { (cert : Cert) → IsCert cert →
        length (cert_text cert) ≤ 17 + 14 * length cert.weights + 16 * length cert.lengths
        + 20 * sum_by length cert.potentials + 5 * length cert.choices }
    ensures enough { (board : Board) (cert : Cert) → IsBoard board → IsCert cert → IsCertFor board cert →
        sum_by length cert.potentials ≤ most_potential_values →
        length (cert_text cert) ≤ most_bytes }
{}

/// A text that is cut one byte past the longest says what the whole text says, so no more of it need be read.
pub fn cut_text_says_the_same()
    ensures { (board : Board) (text : List ℕ) →
        cert_of board (take (most_bytes + 1) text) ≡ cert_of board text }
{}

/// The certificate that a text says keeps to the ranges of its numbers.
pub fn a_text_says_a_certificate()
    ensures { (board : Board) (text : List ℕ) (cert : Cert) → cert_of board text ≡ Ok cert → IsCert cert }
{}
