//! Laws of certificates and their texts.
//!
//! Each law is a function without effect, whose clauses hold of all values that they name.
ghost use Rattle.std.specs.Prelude.{◌≡◌, ℕ, List, length};
ghost use Rattle.bz_model.specs.Spec.{Spec};
ghost use Rattle.certificate.specs.declared.certificate.Certificate.{Certificate};
ghost use Rattle.class_system.specs.Sound.{IsSound};
ghost use Rattle.sha2.specs.Sha256.{sha256};
ghost use Rattle.certificate.specs.declared.reason.Verdict.{Verdict};
ghost use Rattle.certificate.specs.declared.reason.Verdict.TheVariants.{Valid};
ghost use Rattle.certificate.specs.Alike.{AreAlike};
ghost use Rattle.certificate.specs.Completeness.{IsOfDrawing};
ghost use Rattle.certificate.specs.Checks.{checks};
ghost use Rattle.certificate.specs.Verdicts.{FirstFails};
ghost use Rattle.certificate.specs.Certificates.{IsCertificate, certificate_lines};
ghost use Rattle.certificate.specs.Fields.{IsDigest};
ghost use Rattle.certificate.specs.Lines.{text_of};
ghost use Rattle.certificate.specs.Ranges.{CertificateInRange};
ghost use Rattle.certificate.specs.Reading.{IsTextOf, IsFirstBad};

/// What is written is read: the text of a certificate has no bad line.
pub fn written_is_read()
    ensures { (c : Certificate) (line : ℕ) → IsCertificate c → CertificateInRange c
        → ¬ (IsFirstBad (text_of (certificate_lines c)) line) }
{}

/// One text has one certificate: certificates with one text have the same lines.
pub fn one_text_one_certificate()
    ensures { (a b : Certificate) → IsCertificate a → CertificateInRange a → IsCertificate b
        → CertificateInRange b
        → text_of (certificate_lines a) ≡ text_of (certificate_lines b)
        → certificate_lines a ≡ certificate_lines b }
{}

/// Certificates with one text are alike: they say the same, and differ at most in the spare room of
/// their lists of cells.
pub fn certificates_with_one_text_are_alike()
    ensures { (bytes : List ℕ) (a b : Certificate) → IsTextOf bytes a → IsTextOf bytes b
        → AreAlike a b }
{}

/// Certificates that are alike have one verdict, as many entries, and the same lines.
pub fn alike_certificates_have_one_verdict()
    ensures verdict { (s : Spec) (F : ℕ) (a b : Certificate) (told : Verdict) → AreAlike a b
        → FirstFails (checks s F a) told → FirstFails (checks s F b) told }
    ensures count { (a b : Certificate) → AreAlike a b → length a.entries ≡ length b.entries }
    ensures lines { (a b : Certificate) → AreAlike a b → certificate_lines a ≡ certificate_lines b }
{}

/// The SHA-256 digest of any message is 32 bytes, as a certificate's digest is.
pub fn a_digest_is_32_bytes()
    ensures { (message : List ℕ) → IsDigest (sha256 message) }
{}

/// A text has at most one first bad line.
pub fn first_bad_line_is_one()
    ensures { (bytes : List ℕ) (line other : ℕ) → IsFirstBad bytes line → IsFirstBad bytes other
        → line ≡ other }
{}

/// A certificate has one verdict: the tests in order tell at most one.
pub fn a_certificate_has_one_verdict()
    ensures { (s : Spec) (F : ℕ) (c : Certificate) (told other : Verdict)
        → FirstFails (checks s F c) told → FirstFails (checks s F c) other → told ≡ other }
{}

/// What a drawing prints is valid: each test passes of a certificate whose header is that of the
/// specification, with a window and a post-fixed base, whose entries are of kept objects, each made
/// of its cells by the levels of the base, and which counts its entries.
pub fn what_a_drawing_prints_is_valid()
    ensures { (s : Spec) (F : ℕ) (c : Certificate) → IsSound s → IsOfDrawing s F c
        → FirstFails (checks s F c) Valid }
{}
