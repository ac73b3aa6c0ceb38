// The planning station's C call, as include/soguapy.h declares it.
#![tactic(auto)]

ghost use Rattle.station.specs.Station.{Station, ReportsAlike};

// Reports on an edit file: returns the report's length, or 2,147,483,648 plus the refusal, which leaves every byte of the buffer as it was.
#[unsafe(no_mangle)]
pub extern "C" fn soguapy_report(kind: u32, file: &[u8], report: &mut [u8]) -> u32
    ensures answers { Station kind file.now report.old report.new result }
    ensures alike { ReportsAlike kind file.now report.old report.new result }
{
    station::station::soguapy_report(kind, file, report)
}
