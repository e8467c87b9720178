//! What pages load.

/// The style of the pages.
pub const STYLE: &str = "\
:root{color-scheme:light dark;font:16px/1.5 system-ui,sans-serif}
body{margin:0 auto;max-width:60rem;padding:1rem}
h1{font-size:1.4rem;margin:0}
h1 a{color:inherit;text-decoration:none}
h2{font-size:1.15rem;margin:1.6rem 0 .4rem}
h3{font-size:1rem;margin:1rem 0 .3rem}
label{display:block;margin:.8rem 0 .2rem;font-weight:600}
label.flag{display:inline-block;margin-right:1rem;font-weight:400}
small{font-weight:400}
textarea,input[type=text]{box-sizing:border-box;width:100%;padding:.4rem}
textarea,input[type=text]{font:14px/1.4 ui-monospace,monospace}
input[type=range]{width:100%;max-width:30rem;vertical-align:middle}
input[type=file]{display:block;margin:.3rem 0}
button{margin-top:.6rem;padding:.5rem 1.2rem;font:inherit}
section.valid,section.invalid,section.none{margin:1rem 0;padding:.2rem 1rem}
section.none{border-left:.4rem solid gray}
section.valid{border-left:.4rem solid green}
section.invalid{border-left:.4rem solid crimson}
dl{display:grid;grid-template-columns:max-content 1fr;gap:.2rem 1rem;margin:.5rem 0}
dt{font-weight:600}
dd{margin:0;overflow-wrap:anywhere}
.wide{overflow-x:auto}
table{border-collapse:collapse;width:100%;font-size:.9rem}
th,td{text-align:left;vertical-align:top;padding:.3rem .6rem;border-bottom:1px solid gray}
td.id{font:12px/1.4 ui-monospace,monospace;overflow-wrap:anywhere;min-width:9rem}
td.name{overflow-wrap:anywhere;min-width:9rem}
td.past,td.near,tr.bad td{color:crimson;font-weight:600}
@media(prefers-color-scheme:dark){td.past,td.near,tr.bad td{color:salmon}}
@media(max-width:30rem){dl{grid-template-columns:1fr}dd{margin-bottom:.4rem}}
";

/// The script of the pages: the slider shows its position and asks for it; files are put into the
/// field for the chain, as PEM.
pub const SCRIPT: &str = "\
\"use strict\";
const slider = document.querySelector(\"input[type=range]\");
const shown = document.getElementById(\"shown\");
if (slider && shown) {
  slider.addEventListener(\"input\", () => { shown.textContent = slider.value; });
  slider.addEventListener(\"change\", () => slider.form.submit());
}
function pem(octets) {
  const text = new TextDecoder().decode(octets);
  if (text.includes(\"-----BEGIN\")) return text.endsWith(\"\\n\") ? text : text + \"\\n\";
  let plain = \"\";
  for (const octet of octets) plain += String.fromCharCode(octet);
  const lines = btoa(plain).match(/.{1,64}/g) || [];
  return [\"-----BEGIN CERTIFICATE-----\", ...lines, \"-----END CERTIFICATE-----\", \"\"].join(\"\\n\");
}
const chain = document.getElementById(\"chain\");
if (chain) {
  const file = document.createElement(\"input\");
  file.type = \"file\";
  file.multiple = true;
  file.id = \"file\";
  file.setAttribute(\"aria-label\", \"Files with the chain\");
  file.addEventListener(\"change\", async () => {
    let text = \"\";
    for (const one of file.files) text += pem(new Uint8Array(await one.arrayBuffer()));
    chain.value = text;
  });
  chain.before(file);
}
";
