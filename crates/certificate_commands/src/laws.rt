//! Laws of the commands' outcomes. Each function's contract is a law, and its body calls only laws.
ghost use Rattle.std.specs.Prelude.{◌≡◌, ◌≢◌, ℕ, ◌≤◌, List, [], ◌∷◌, length};
ghost use Rattle.bz_model.specs.Spec.{Spec};
ghost use Rattle.certificate.specs.Checks.{checks};
ghost use Rattle.certificate.specs.Reading.{IsFirstBad};
ghost use Rattle.certificate.specs.Verdicts.{FirstFails};
ghost use Rattle.certificate.specs.declared.certificate.Certificate.{Certificate};
ghost use Rattle.certificate.specs.declared.reason.Reason.{Reason};
ghost use Rattle.certificate.specs.declared.reason.Verdict.TheVariants.{Valid, Invalid};
ghost use Rattle.call_stages.specs.Outcomes.{IsOne};
ghost use Rattle.call_stages.specs.Stages.{Files, IsCalm, AreCalm, HasSpecification};
ghost use Rattle.call_stages.specs.declared.status.Status.{Status};
ghost use Rattle.certificate_commands.specs.Tested.{tested_bits, invalid_line};
ghost use Rattle.certificate_commands.specs.VerifyCommand.{valid_line, CarriesVerify};
ghost use Rattle.certificate_commands.specs.MigrateCommand.{migrated_text, CarriesMigrate};
ghost use Rattle.certificate_commands.specs.Completeness.{HasCertificate, IsVerifiedAs, IsMigrated};
ghost use Rattle.certificate_commands.specs.Completeness.{HoldsText};
ghost use Rattle.certificate_commands.specs.CertificateStage.{bad_line};

use certificate::laws::{
    a_certificate_has_one_verdict, a_digest_is_32_bytes, alike_certificates_have_one_verdict,
    certificates_with_one_text_are_alike, first_bad_line_is_one,
};

/// But for want of memory a command has one status with one text, where its files are known and no
/// read of them failed.
pub fn the_command_has_one_outcome()
    ensures verify { (f : Files) (file cert : List ℕ) → AreCalm f (file ∷ cert ∷ [])
        → IsOne (CarriesVerify f file cert) }
    ensures migrate { (f : Files) (file cert : List ℕ) → AreCalm f (file ∷ cert ∷ [])
        → IsOne (CarriesMigrate f file cert) }
{
    certificates_with_one_text_are_alike();
    alike_certificates_have_one_verdict();
    a_certificate_has_one_verdict();
    first_bad_line_is_one();
}

/// Where `verify` is done, the first file has a specification, and the second is the text of a
/// certificate that is valid for it and sound, whoever made it; what is printed counts its entries.
/// Where `migrate` is done, the same holds, and what is printed is that certificate in version 2.
pub fn what_is_found_valid_is_sound()
    ensures verify { (f : Files) (file cert : List ℕ) (status : Status) (text : List ℕ) (ticks : ℕ)
        → status ≡ Status.Done → CarriesVerify f file cert status text ticks
        → IsVerifiedAs f file cert (λ s c. valid_line (length c.entries)) text }
    ensures migrate { (f : Files) (file cert : List ℕ) (status : Status) (text : List ℕ) (ticks : ℕ)
        → status ≡ Status.Done → CarriesMigrate f file cert status text ticks
        → IsVerifiedAs f file cert migrated_text text }
{}

/// A text that is no certificate's has no other answer than its first bad line, where the
/// specification can be read and memory suffices.
pub fn what_is_no_certificate_is_refused()
    ensures verify { (f : Files) (file cert : List ℕ) (s : Spec) (calm : IsCalm f cert) (line : ℕ)
        (status : Status) (text : List ℕ) (ticks : ℕ) → HasSpecification f file s
        → length calm.bytes ≤ 268435456 → IsFirstBad calm.bytes line
        → status ≢ Status.OutOfMemory → CarriesVerify f file cert status text ticks
        → (status ≡ Status.CertRefused) × (text ≡ bad_line line) }
    ensures migrate { (f : Files) (file cert : List ℕ) (s : Spec) (calm : IsCalm f cert) (line : ℕ)
        (status : Status) (text : List ℕ) (ticks : ℕ) → HasSpecification f file s
        → length calm.bytes ≤ 268435456 → IsFirstBad calm.bytes line
        → status ≢ Status.OutOfMemory → CarriesMigrate f file cert status text ticks
        → (status ≡ Status.CertRefused) × (text ≡ bad_line line) }
{}

/// What passes all tests has no other answer than that: `verify` counts its entries, and `migrate`
/// writes it in version 2.
pub fn what_is_valid_is_found_valid()
    ensures verify { (f : Files) (file cert : List ℕ) (s : Spec) (c : Certificate) (status : Status)
        (text : List ℕ) (ticks : ℕ) → HasSpecification f file s → HasCertificate f cert c
        → FirstFails (checks s (tested_bits c.header) c) Valid
        → status ≢ Status.OutOfMemory → CarriesVerify f file cert status text ticks
        → (status ≡ Status.Done) × (text ≡ valid_line (length c.entries)) }
    ensures migrate { (f : Files) (file cert : List ℕ) (s : Spec) (c : Certificate)
        (status : Status)
        (text : List ℕ) (ticks : ℕ) → HasSpecification f file s → HasCertificate f cert c
        → FirstFails (checks s (tested_bits c.header) c) Valid
        → status ≢ Status.OutOfMemory → CarriesMigrate f file cert status text ticks
        → (status ≡ Status.Done) × (text ≡ migrated_text s c) }
{
    certificates_with_one_text_are_alike();
    alike_certificates_have_one_verdict();
    a_certificate_has_one_verdict();
}

/// What fails a test has no other answer than the line of the first test that fails, with its
/// reason.
pub fn what_fails_a_test_is_refused()
    ensures verify { (f : Files) (file cert : List ℕ) (s : Spec) (c : Certificate) (line : ℕ)
        (why : Reason) (status : Status) (text : List ℕ) (ticks : ℕ) → HasSpecification f file s
        → HasCertificate f cert c
        → FirstFails (checks s (tested_bits c.header) c) (Invalid line why)
        → status ≢ Status.OutOfMemory → CarriesVerify f file cert status text ticks
        → (status ≡ Status.CertRefused) × (text ≡ invalid_line line why) }
    ensures migrate { (f : Files) (file cert : List ℕ) (s : Spec) (c : Certificate) (line : ℕ)
        (why : Reason) (status : Status) (text : List ℕ) (ticks : ℕ) → HasSpecification f file s
        → HasCertificate f cert c
        → FirstFails (checks s (tested_bits c.header) c) (Invalid line why)
        → status ≢ Status.OutOfMemory → CarriesMigrate f file cert status text ticks
        → (status ≡ Status.CertRefused) × (text ≡ invalid_line line why) }
{
    certificates_with_one_text_are_alike();
    alike_certificates_have_one_verdict();
    a_certificate_has_one_verdict();
}

/// What `migrate` wrote is the text of the certificate in version 2, with the digest of the
/// specification's canonical text, and passes all tests. So `verify` counts as many entries in it,
/// and `migrate` writes it as it is.
pub fn what_migrate_wrote_is_valid()
    ensures valid { (f : Files) (file cert : List ℕ) (status : Status) (text : List ℕ) (ticks : ℕ)
        → status ≡ Status.Done → CarriesMigrate f file cert status text ticks
        → IsMigrated f.content file cert text }
    ensures verify { (f g : Files) (file cert again wrote : List ℕ) (s : Spec) (c : Certificate)
        (status other : Status) (text others : List ℕ) (ticks more : ℕ) → HasSpecification f file s
        → HasCertificate f cert c → status ≡ Status.Done
        → CarriesMigrate f file cert status text ticks
        → HasSpecification g again s → HoldsText g wrote text
        → other ≢ Status.OutOfMemory → CarriesVerify g again wrote other others more
        → (other ≡ Status.Done) × (others ≡ valid_line (length c.entries)) }
    ensures migrate { (f g : Files) (file cert again wrote : List ℕ) (s : Spec) (c : Certificate)
        (status other : Status) (text others : List ℕ) (ticks more : ℕ) → HasSpecification f file s
        → HasCertificate f cert c → status ≡ Status.Done
        → CarriesMigrate f file cert status text ticks
        → HasSpecification g again s → HoldsText g wrote text
        → other ≢ Status.OutOfMemory → CarriesMigrate g again wrote other others more
        → (other ≡ Status.Done) × (others ≡ text) }
{
    certificates_with_one_text_are_alike();
    alike_certificates_have_one_verdict();
    a_certificate_has_one_verdict();
    a_digest_is_32_bytes();
}
